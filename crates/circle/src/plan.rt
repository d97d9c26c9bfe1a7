// How a circle is planned from its line or record.
ghost use Rattle.std.specs.Prelude.{◌≡◌, true, ◌&&◌, ◌<◌, ◌≤◌, eqb, get_or};
ghost use Rattle.count.specs.Numbers.{count, signed, word};
ghost use Rattle.count.specs.Ranges.{in_start, right_arc};
ghost use Rattle.motion.specs.Phase.{sign_value};
ghost use Rattle.circle.specs.Plan.{plane_of, direction_of, plane_set, start_of, or_else, first_ways, less, centre_of, arc_from, going_by, bend_of};

use super::beats::at_centre;
use super::counted::Counted;
use super::rule::{shifted_by, ways_of};
use super::sound::has_room;
use super::{Arc, Circling, Direction, Pair, Plane, Ways};
use count::{Axis, Fault};
use motion::{Counters, Sign};

// The plane of a number.
pub fn plane_of(w: u32) -> Plane
    ensures { result ≡ plane_of w }
{
    match w {
        0 => Plane::XY,
        1 => Plane::XZ,
        _ => Plane::YZ,
    }
}

// The direction of a number.
pub fn direction_of(w: u32) -> Direction
    ensures { result ≡ direction_of w }
{
    if w == 0 {
        return Direction::Clockwise;
    }
    Direction::Counter
}

// 3: whether both axes of a plane are set.
fn plane_set(axes: u8, plane: Plane) -> bool
    ensures { result ≡ plane_set axes plane }
{
    match plane {
        Plane::XY => count::has(axes as u32, Axis::X) & count::has(axes as u32, Axis::Y),
        Plane::XZ => count::has(axes as u32, Axis::X) & count::has(axes as u32, Axis::Z),
        Plane::YZ => count::has(axes as u32, Axis::Y) & count::has(axes as u32, Axis::Z),
    }
}

// A start's word as a count.
fn start_count(w: u32) -> u32
    requires { in_start (signed w) ≡ true }
    ensures { (result ≡ count (signed w)) × (result < 16777216) }
{
    if w < 2147483648 {
        return w + 8388608;
    }
    w - 4286578688
}

// The start, counted from the centre.
fn start_of(words: [u32; 8]) -> Counted
    requires { right_arc words ≡ true }
    ensures { result.pair ≡ start_of words }
{
    let first = start_count(words[3]);
    let second = start_count(words[4]);
    Counted {
        pair: Pair { first, second },
    }
}

fn or_else(s: Sign, later: Sign) -> Sign
    ensures { result ≡ or_else s later }
{
    match s {
        Sign::Rest => later,
        Sign::Minus | Sign::Plus => s,
    }
}

// The ways that the rule gives at the start; for an axis that has none there, the one once the first pulse is made.
fn first_ways(d: Direction, start: Counted) -> Ways
    ensures { result ≡ first_ways d start.pair }
{
    let centre = at_centre();
    let w = ways_of(d, centre, start.pair);
    let later = ways_of(d, centre, shifted_by(start, w));
    Ways {
        first: or_else(w.first, later.first),
        second: or_else(w.second, later.second),
    }
}

// A sign's number as a word.
fn way_word(s: Sign) -> u32
    ensures { result ≡ word (sign_value s) }
{
    match s {
        Sign::Minus => u32::MAX,
        Sign::Rest => 0,
        Sign::Plus => 1,
    }
}

// 1: whether the two ways sent are those of the rule.
fn ways_fit(w: Ways, words: [u32; 8]) -> bool
    ensures { result ≡ eqb (get_or words 5 0) (word (sign_value w.first)) && eqb (get_or words 6 0) (word (sign_value w.second)) }
{
    (words[5] == way_word(w.first)) & (words[6] == way_word(w.second))
}

// The position minus the start.
fn less_by(at: u32, start: u32) -> u32
    requires { (at < 16777216) × (start < 16777216) }
    ensures { result ≡ less at start }
{
    (at + 8388608).saturating_sub(start)
}

fn centre_of(at: Counted, start: Counted) -> Pair
    ensures { result ≡ centre_of at.pair start.pair }
{
    Pair {
        first: less_by(at.pair.first, start.pair.first),
        second: less_by(at.pair.second, start.pair.second),
    }
}

fn arc_of(circling: Circling, centre: Pair, start: Pair, words: [u32; 8]) -> Arc
    requires { get_or words 1 0 ≤ 10000 }
    ensures { result ≡ arc_from circling centre start words }
{
    Arc {
        circling,
        centre,
        start,
        speed: words[1] as u16,
        length: words[0],
        made: 0,
    }
}

// 9: the arc, if the square around its centre lies within 24 bits.
fn bend_by(circling: Circling, at: Counters, start: Counted, words: [u32; 8]) -> Result<Arc, Fault>
    requires { get_or words 1 0 ≤ 10000 }
    ensures { result ≡ going_by circling at start.pair words }
{
    if !motion::counted_at(at) {
        return Err(Fault::Outside);
    }
    let centre = centre_of(Counted::on_plane(circling.plane, at), start);
    if has_room(centre, start) {
        return Ok(arc_of(circling, centre, start.pair, words));
    }
    Err(Fault::Outside)
}

// The plan of a circle, or what refuses it: 3, 1, D, 9 in this order.
pub fn bend(axes: u8, circling: Circling, at: Counters, words: [u32; 8]) -> Result<Arc, Fault>
    ensures { result ≡ bend_of axes circling at words }
{
    if !plane_set(axes, circling.plane) {
        return Err(Fault::Axes);
    }
    if !count::right_arc(words) {
        return Err(Fault::Range);
    }
    let start = start_of(words);
    if !ways_fit(first_ways(circling.direction, start), words) {
        return Err(Fault::Range);
    }
    if !count::is_speed(words[1]) {
        return Err(Fault::Speed);
    }
    bend_by(circling, at, start, words)
}
