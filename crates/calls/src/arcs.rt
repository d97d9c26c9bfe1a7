// What a host sets of circles by name: the board's plane and direction, and the fields of an arc under way.
use crate::host::count_of;
use circle::{Arc, Circling, Direction, Plane};

pub(crate) fn with_plane(c: Circling, number: i64) -> Option<Circling> {
    let plane = match number {
        0 => Plane::XY,
        1 => Plane::XZ,
        2 => Plane::YZ,
        _ => return None,
    };
    Some(Circling { plane, ..c })
}

pub(crate) fn with_direction(c: Circling, number: i64) -> Option<Circling> {
    let direction = match number {
        0 => Direction::Clockwise,
        -1 => Direction::Counter,
        _ => return None,
    };
    Some(Circling { direction, ..c })
}

// An arc with a field set, if there is one of this name that can hold the number.
pub(crate) fn arc_with(a: Arc, name: &[u8], number: i64) -> Option<Arc> {
    let mut next = a;
    match name {
        b"arcplane" => next.circling = with_plane(a.circling, number)?,
        b"arcturn" => next.circling = with_direction(a.circling, number)?,
        b"centre1" => next.centre.first = count_of(number)?,
        b"centre2" => next.centre.second = count_of(number)?,
        b"start1" => next.start.first = count_of(number)?,
        b"start2" => next.start.second = count_of(number)?,
        b"arcspeed" => next.speed = u16::try_from(number).ok()?,
        b"length" => next.length = u32::try_from(number).ok()?,
        b"made" => next.made = u32::try_from(number).ok()?,
        _ => return None,
    }
    Some(next)
}
