// The rule of a pulse: which axis of the plane moves, and which way.
ghost use Rattle.std.specs.Prelude.{◌≡◌, ◌≤◌, ◌<◌, ◌*◌};
ghost use Rattle.count.specs.Numbers.{far};
ghost use Rattle.motion.specs.Phase.{moved};
ghost use Rattle.circle.specs.Rule.{on_plane, on_axes, side, measure, against, turning, ways_at, rests, shifted, off, move_of};

use super::counted::Counted;
use super::{Direction, Pair, Plane, Ways};
use motion::{Counters, Sign, Signs};

// Where the axes of a plane stand.
pub(crate) fn on_plane(plane: Plane, c: Counters) -> Pair
    ensures { result ≡ on_plane plane c }
{
    match plane {
        Plane::XY => Pair {
            first: c.x,
            second: c.y,
        },
        Plane::XZ => Pair {
            first: c.x,
            second: c.z,
        },
        Plane::YZ => Pair {
            first: c.y,
            second: c.z,
        },
    }
}

// What the axes of a plane show; the others rest.
pub(crate) fn on_axes(plane: Plane, w: Ways) -> Signs
    ensures { result ≡ on_axes plane w }
{
    let still = Signs {
        x: Sign::Rest,
        y: Sign::Rest,
        z: Sign::Rest,
        a: Sign::Rest,
    };
    match plane {
        Plane::XY => Signs {
            x: w.first,
            y: w.second,
            ..still
        },
        Plane::XZ => Signs {
            x: w.first,
            z: w.second,
            ..still
        },
        Plane::YZ => Signs {
            y: w.first,
            z: w.second,
            ..still
        },
    }
}

// The sign of a coordinate.
fn side_of(centre: u32, at: u32) -> Sign
    ensures { result ≡ side centre at }
{
    if at < centre {
        return Sign::Minus;
    }
    if centre < at {
        return Sign::Plus;
    }
    Sign::Rest
}

fn square(d: u32) -> u64
    requires { d ≤ 16777216 }
    ensures { (result ≡ d * d) × (result ≤ 281474976710656) }
{
    let wide = d as u64;
    wide * wide
}

// x² + y² of a point counted from a centre.
pub(crate) fn measured(centre: Pair, at: Pair) -> u64
    requires { (far centre.first at.first ≤ 16777216) × (far centre.second at.second ≤ 16777216) }
    ensures { result ≡ measure centre at }
{
    let x = count::distance(centre.first, at.first);
    let y = count::distance(centre.second, at.second);
    square(x) + square(y)
}

fn opposite(s: Sign) -> Sign
    ensures { result ≡ against s }
{
    match s {
        Sign::Minus => Sign::Plus,
        Sign::Rest => Sign::Rest,
        Sign::Plus => Sign::Minus,
    }
}

// Which way the axes go, by the direction and the signs of the two coordinates.
fn turned(d: Direction, first: Sign, second: Sign) -> Ways
    ensures { result ≡ turning d first second }
{
    match d {
        Direction::Clockwise => Ways {
            first: second,
            second: opposite(first),
        },
        Direction::Counter => Ways {
            first: opposite(second),
            second: first,
        },
    }
}

pub(crate) fn ways_of(d: Direction, centre: Pair, at: Pair) -> Ways
    ensures { result ≡ ways_at d centre at }
{
    let x = side_of(centre.first, at.first);
    let y = side_of(centre.second, at.second);
    turned(d, x, y)
}

fn is_rest(s: Sign) -> bool
    ensures { result ≡ rests s }
{
    matches!(s, Sign::Rest)
}

// A count with a sign; one at 0 stays there.
fn shift(c: u32, s: Sign) -> u32
    requires { c < 16777216 }
    ensures { (result ≡ moved c s) × (result ≤ 16777216) }
{
    match s {
        Sign::Minus => c.saturating_sub(1),
        Sign::Rest => c,
        Sign::Plus => c + 1,
    }
}

pub(crate) fn shifted_by(at: Counted, w: Ways) -> Pair
    ensures { (result ≡ shifted at.pair w) × (result.first ≤ 16777216) × (result.second ≤ 16777216) }
{
    Pair {
        first: shift(at.pair.first, w.first),
        second: shift(at.pair.second, w.second),
    }
}

// How far x² + y² is from its start value.
fn off_by(value: u64, centre: Pair, at: Pair) -> u64
    requires { (far centre.first at.first ≤ 16777216) × (far centre.second at.second ≤ 16777216) }
    ensures { result ≡ off value centre at }
{
    value.abs_diff(measured(centre, at))
}

// Which of the two axes moves.
pub(crate) fn move_by(value: u64, centre: Counted, at: Counted, w: Ways) -> Ways
    ensures { result ≡ move_of value centre.pair at.pair w }
{
    let one = Ways {
        second: Sign::Rest,
        ..w
    };
    let two = Ways {
        first: Sign::Rest,
        ..w
    };
    if is_rest(w.first) {
        return two;
    }
    if is_rest(w.second) {
        return one;
    }
    let by_one = off_by(value, centre.pair, shifted_by(at, one));
    let by_two = off_by(value, centre.pair, shifted_by(at, two));
    if by_one <= by_two {
        return one;
    }
    two
}
