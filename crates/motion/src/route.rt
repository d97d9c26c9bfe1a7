// The plan of a movement: its resting points and its speeds.
ghost use Rattle.std.specs.Prelude.{◌≡◌, true, ◌&&◌, ◌≤◌, ◌<◌, Some};
ghost use Rattle.count.specs.Pick.{pick};
ghost use Rattle.count.specs.Axes.{has};
ghost use Rattle.count.specs.Ranges.{right_distances, right_speeds};
ghost use Rattle.motion.specs.Plan.{asked, goal, on_from, first_speed, later_speed, route, going_to, plan_of};

use super::{Counters, Move};
use count::{Axis, chosen};

// Whether the numbers are a movement's under these axes.
fn right(axes: u8, absolute: bool, words: [u32; 8]) -> bool
    ensures { result ≡ right_distances axes absolute words && right_speeds axes words }
{
    count::right_distances(axes, absolute, words) & count::right_speeds(axes, words)
}

// Where an axis rests. Parameters, no struct: who calls has points, not counts, and a record's words.
fn goal_of(absolute: bool, at: u32, origin: u32, w: u32) -> Option<u32>
    ensures { result ≡ goal absolute at origin w }
{
    if absolute {
        return count::add(origin, w);
    }
    count::add(at, w)
}

// The same of an axis, which stays where it is not set.
fn goal_on(axis: Axis, axes: u8, absolute: bool, at: u32, origin: u32, w: u32) -> Option<u32>
    ensures { result ≡ pick (has axes axis) (goal absolute at origin w) (Some at) }
{
    if count::has(axes as u32, axis) {
        return goal_of(absolute, at, origin, w);
    }
    Some(at)
}

// Where z2 rests, from where z1 does.
fn goal_z2(moves: bool, z1: u32, w: u32) -> Option<u32>
    ensures { result ≡ pick moves (on_from (Some z1) w) (Some z1) }
{
    if moves {
        return count::add(z1, w);
    }
    Some(z1)
}

// A speed's word as a speed. `u16::try_from` would be a test that never fails.
fn narrow(w: u32) -> u16
    requires { w ≤ 10000 }
    ensures { result ≡ w }
{
    w as u16
}

// The speed of the first phase: in 3D x's; else the longer axis's, x's at a tie.
fn first_speed(three: bool, at: Counters, goals: Counters, words: [u32; 8]) -> u32
    ensures { result ≡ first_speed (asked 0 three at at true words) goals }
{
    let longer_y = count::distance(at.x, goals.x) < count::distance(at.y, goals.y);
    chosen(three, words[1], chosen(longer_y, words[3], words[1]))
}

// The movement through its resting points.
fn route_of(axes: u8, three: bool, at: Counters, words: [u32; 8], goals: Counters, z2: u32) -> Move
    requires { (first_speed (asked axes three at at true words) goals ≤ 10000)
        × (later_speed (asked axes three at at true words) 5 ≤ 10000) × (later_speed (asked axes three at at true words) 7 ≤ 10000) }
    ensures { result ≡ route (asked axes three at at true words) goals z2 }
{
    let own = count::has(axes as u32, Axis::Z) & !three;
    let first = Counters {
        x: goals.x,
        y: goals.y,
        z: chosen(three, goals.z, at.z),
        a: chosen(three, goals.a, at.a),
    };
    Move {
        start: at,
        first,
        second: Counters {
            z: goals.z,
            ..first
        },
        third: Counters { z: z2, ..goals },
        speed1: narrow(first_speed(three, at, goals, words)),
        speed2: narrow(chosen(own, words[5], words[1])),
        speed3: narrow(chosen(own, words[7], words[1])),
        phase: 0,
        made: 0,
    }
}

// The movement, if all its resting points lie in 24 bits.
fn routed_from(
    axes: u8,
    three: bool,
    at: Counters,
    origin: Counters,
    absolute: bool,
    words: [u32; 8],
) -> Option<Move>
    requires { right_speeds axes words ≡ true }
    ensures { result ≡ going_to (asked axes three at origin absolute words) }
{
    let x = goal_on(Axis::X, axes, absolute, at.x, origin.x, words[0])?;
    let y = goal_on(Axis::Y, axes, absolute, at.y, origin.y, words[2])?;
    let z = goal_on(Axis::Z, axes, absolute, at.z, origin.z, words[4])?;
    let w = chosen(count::has(axes as u32, Axis::X), words[6], words[0]);
    let a = goal_on(Axis::A, axes, absolute, at.a, origin.a, w)?;
    let z2 = goal_z2((axes == 7) & !three & !absolute, z, words[6])?;
    let goals = Counters { x, y, z, a };
    Some(route_of(axes, three, at, words, goals, z2))
}

// The plan of a movement, or that one of its resting points lies outside 24 bits.
pub fn plan(
    axes: u8,
    three: bool,
    at: Counters,
    origin: Counters,
    absolute: bool,
    words: [u32; 8],
) -> Option<Move>
    ensures { result ≡ plan_of (asked axes three at origin absolute words) }
{
    if right(axes, absolute, words) {
        return routed_from(axes, three, at, origin, absolute, words);
    }
    None
}
