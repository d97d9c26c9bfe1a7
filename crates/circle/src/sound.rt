// What 103 asks of an arc under way; no root is taken.
ghost use Rattle.std.specs.Prelude.{◌≡◌, true, ◌&&◌, ◌+◌, leb};
ghost use Rattle.motion.specs.Sound.{speed_right};
ghost use Rattle.circle.specs.Rule.{on_plane};
ghost use Rattle.circle.specs.Plan.{root, reaches, has_room};
ghost use Rattle.circle.specs.Sound.{start_sound, point_sound, arc_under_way, arc_look};

use super::beats::start_value;
use super::counted::Counted;
use super::rule::on_plane;
use super::{Arc, Pair};
use motion::{Counters, Look};

// A start that a line can send.
fn start_right(s: Pair) -> bool
    ensures { result ≡ start_sound s }
{
    let x = count::distance(8388608, s.first);
    let y = count::distance(8388608, s.second);
    let near = (x <= 4000000) & (y <= 4000000);
    let centre = (s.first == 8388608) & (s.second == 8388608);
    near & !centre
}

// Whether a count has room below and above for the root of a number and one more.
fn reaches_by(n: u64, c: u32) -> bool
    ensures { result ≡ reaches (root n + 1) c }
{
    let below = c as u64;
    let above = 16777215u32.saturating_sub(c) as u64;
    (n < below * below) & (n < above * above)
}

// Whether the square around a centre, which an arc never leaves, lies within 24 bits.
pub(crate) fn has_room(centre: Pair, start: Counted) -> bool
    ensures { result ≡ has_room centre start.pair }
{
    let n = start_value(start);
    reaches_by(n, centre.first) & reaches_by(n, centre.second)
}

// Whether a distance is at most the root of a number and one more.
fn is_near(n: u64, d: u32) -> bool
    ensures { result ≡ leb d (root n + 1) }
{
    if d <= 1 {
        return true;
    }
    let inner = (d - 1) as u64;
    inner * inner <= n
}

// Whether a point lies in that square and is not its centre.
fn point_right(start: Counted, centre: Pair, p: Pair) -> bool
    ensures { result ≡ point_sound start.pair centre p }
{
    let n = start_value(start);
    let x = is_near(n, count::distance(centre.first, p.first));
    let y = is_near(n, count::distance(centre.second, p.second));
    let at_centre = (centre.first == p.first) & (centre.second == p.second);
    x & y & !at_centre
}

impl Arc {
    // What needs the start to be one that a line can send.
    fn placed(self, at: Counters) -> bool
        requires { start_sound self.start ≡ true }
        ensures { result ≡ has_room self.centre self.start && point_sound self.start self.centre (on_plane self.circling.plane at) }
    {
        let p = on_plane(self.circling.plane, at);
        let start = Counted::of(self.start);
        has_room(self.centre, start) & point_right(start, self.centre, p)
    }

    // Whether an arc under way is one that 103 lets pass.
    pub fn sound(self, at: Counters) -> bool
        ensures { result ≡ arc_under_way self at }
    {
        if !(motion::counted_at(at) & motion::speed_right(self.speed) & start_right(self.start)) {
            return false;
        }
        self.placed(at) & (self.made <= self.length)
    }

    // 103's test and the next pulse in one.
    pub fn look(self, at: Counters) -> Look
        ensures { result ≡ arc_look self at }
    {
        if !self.sound(at) {
            return Look::Wrong;
        }
        match self.beat(at) {
            Some(b) => Look::Made(b),
            None => Look::Over,
        }
    }
}
