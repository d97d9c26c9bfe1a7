// What a host sets in a board's state by name.
use crate::arcs::{arc_with, with_direction, with_plane};
use board::Board;
use engine::Engine;
use motion::{Counters, Move};
use travel::Travel;

// The count of a number, from -8,388,608 on: as far as 32 bits hold it.
pub(crate) fn count_of(number: i64) -> Option<u32> {
    u32::try_from(number.checked_add(8388608)?).ok()
}

fn flag(number: i64) -> Option<bool> {
    match number {
        0 => Some(false),
        1 => Some(true),
        _ => None,
    }
}

// The counters with an axis set: x, y, z or a.
fn with_axis(c: Counters, axis: u8, number: i64) -> Option<Counters> {
    let count = count_of(number)?;
    let mut next = c;
    match axis {
        b'x' => next.x = count,
        b'y' => next.y = count,
        b'z' => next.z = count,
        b'a' => next.a = count,
        _ => return None,
    }
    Some(next)
}

// A movement with an axis of a point set.
fn with_point(m: Move, point: &[u8], axis: u8, number: i64) -> Option<Move> {
    let mut next = m;
    match point {
        b"start" => next.start = with_axis(m.start, axis, number)?,
        b"first" => next.first = with_axis(m.first, axis, number)?,
        b"second" => next.second = with_axis(m.second, axis, number)?,
        b"third" => next.third = with_axis(m.third, axis, number)?,
        _ => return None,
    }
    Some(next)
}

// A movement with a field set. A point's name is followed by its axis.
fn move_with(m: Move, name: &[u8], number: i64) -> Option<Move> {
    let mut next = m;
    match name {
        b"phase" => next.phase = u8::try_from(number).ok()?,
        b"made" => next.made = u32::try_from(number).ok()?,
        b"speed1" => next.speed1 = u16::try_from(number).ok()?,
        b"speed2" => next.speed2 = u16::try_from(number).ok()?,
        b"speed3" => next.speed3 = u16::try_from(number).ok()?,
        _ => {
            let (axis, point) = name.split_last()?;
            return with_point(m, point, *axis, number);
        }
    }
    Some(next)
}

fn travel_with(t: Travel, name: &[u8], number: i64) -> Option<Travel> {
    match t {
        Travel::Straight(m) => Some(Travel::Straight(move_with(m, name, number)?)),
        Travel::Round(a) => Some(Travel::Round(arc_with(a, name, number)?)),
    }
}

// The engine with a field of what moves set.
fn moving_with(e: Engine, name: &[u8], number: i64) -> Option<Engine> {
    let t = e.under_way()?;
    Some(e.glide(e.at, travel_with(t, name, number)?))
}

// A position's name is its axis alone, an origin's stands behind an o.
fn engine_with(e: Engine, name: &[u8], number: i64) -> Option<Engine> {
    let mut next = e;
    match name {
        b"axes" => next.axes = u8::try_from(number).ok()?,
        b"plane" => next.circling = with_plane(e.circling, number)?,
        b"turn" => next.circling = with_direction(e.circling, number)?,
        b"place" => next.run.place = u16::try_from(number).ok()?,
        b"depth" => next.run.loops.depth = u8::try_from(number).ok()?,
        [axis] => next.at = with_axis(e.at, *axis, number)?,
        [b'o', axis] => next.origin = with_axis(e.origin, *axis, number)?,
        _ => return moving_with(e, name, number),
    }
    Some(next)
}

// The board with a field set, its own or one of what is under way, if there is one of this name that can hold the number.
pub(crate) fn board_with(board: Board, name: &[u8], number: i64) -> Option<Board> {
    let mut next = board;
    match name {
        b"standing" => next.standing = flag(number)?,
        b"len" => next.line.len = u8::try_from(number).ok()?,
        b"over" => next.line.over = flag(number)?,
        _ => next.engine = engine_with(board.engine, name, number)?,
    }
    Some(next)
}
