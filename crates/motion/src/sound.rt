// What 103 asks of a movement under way.
ghost use Rattle.std.specs.Prelude.{◌≡◌, ◌&&◌, ◌≤◌, ◌<◌, eqb};
ghost use Rattle.count.specs.Numbers.{far};
ghost use Rattle.count.specs.Axes.{on_all};
ghost use Rattle.motion.specs.Axes.{on};
ghost use Rattle.motion.specs.Phase.{steps, count_after};
ghost use Rattle.motion.specs.work.Room.{NoFurther};
ghost use Rattle.motion.specs.Sound.{speed_right, counted, in_range, under_way};
ghost use Rattle.motion.specs.work.Here.{next_of};
ghost use Rattle.motion.specs.work.Beat.{looked_by, look_of};

use super::phase::pulses_of;
use super::pulse::signs_at;
use super::{Counters, Look, Move};

// A speed: 30 to 10,000.
pub fn speed_right(v: u16) -> bool
    ensures { result ≡ speed_right v }
{
    (30 <= v) & (v <= 10000)
}

// Whether the counts of a point are of 24 bits.
pub fn counted_at(c: Counters) -> bool
    ensures { result ≡ counted c }
{
    count::in_range(c.x) & count::in_range(c.y) & count::in_range(c.z) & count::in_range(c.a)
}

// Whether an axis of distance d has made s steps after pulse k of n: 01's quotient by its two bounds. k and n stay parameters, here of a
// distance and below of ends.
fn has_made(s: u32, k: u32, d: u32, n: u32) -> bool
    requires { (0 < n) × (n < 16777216) × (k ≤ n) × (d ≤ n) }
    ensures { result ≡ eqb s (steps k d n) }
{
    let wide_n = n as u64;
    let sum = 2 * (k as u64) * (d as u64) + wide_n;
    let low = 2 * wide_n * (s as u64);
    (low <= sum) & (sum < low + 2 * wide_n)
}

// Whether an axis stands where pulse k of n puts it.
fn stands(at: u32, from: u32, to: u32, k: u32, n: u32) -> bool
    requires { (n < 16777216) × (k ≤ n) × (far from to ≤ n) }
    ensures { result ≡ eqb at (count_after k from to n) }
{
    if n == 0 {
        return at == from;
    }
    let s = count::distance(from, at);
    let d = count::distance(from, to);
    if to < from {
        return (at <= from) & has_made(s, k, d, n);
    }
    (from <= at) & has_made(s, k, d, n)
}

// Whether the axes stand where pulse k of n puts them.
fn stand_at(at: Counters, from: Counters, to: Counters, k: u32, n: u32) -> bool
    requires { (n < 16777216) × (k ≤ n) × NoFurther from to n }
    ensures { result ≡ on_all (λ i. eqb (on i at) (count_after k (on i from) (on i to) n)) }
{
    let x = stands(at.x, from.x, to.x, k, n);
    let y = stands(at.y, from.y, to.y, k, n);
    let z = stands(at.z, from.z, to.z, k, n);
    let a = stands(at.a, from.a, to.a, k, n);
    x & y & z & a
}

impl Move {
    // Speeds and resting points in range.
    fn in_range(self) -> bool
        ensures { result ≡ in_range self }
    {
        let speeds = speed_right(self.speed1) & speed_right(self.speed2) & speed_right(self.speed3);
        let points = counted_at(self.start)
            & counted_at(self.first)
            & counted_at(self.second)
            & counted_at(self.third);
        speeds & points
    }

    // Whether a movement under way is one that 103 lets pass.
    pub fn sound(self, at: Counters) -> bool
        ensures { result ≡ under_way self at }
    {
        let mark = self.mark();
        let from = self.from_at(mark);
        let to = self.to_at(mark);
        let n = pulses_of(from, to);
        let k = self.made;
        if !self.in_range() | (3 <= self.phase) | (n < k) {
            return false;
        }
        stand_at(at, from, to, k, n)
    }

    // The next pulse of a movement whose phase under way has none left.
    fn look_on(self, at: Counters) -> Look
        ensures { result ≡ looked_by (next_of self at) }
    {
        match self.beat(at) {
            Some(b) => Look::Made(b),
            None => Look::Over,
        }
    }

    // 103's test and the next pulse in one: they share their products.
    pub fn look(self, at: Counters) -> Look
        ensures { result ≡ look_of self at }
    {
        let mark = self.mark();
        let from = self.from_at(mark);
        let to = self.to_at(mark);
        let n = pulses_of(from, to);
        let k = self.made;
        if !self.in_range() | (3 <= self.phase) | (n < k) {
            return Look::Wrong;
        }
        if !stand_at(at, from, to, k, n) {
            return Look::Wrong;
        }
        if k < n {
            let signs = signs_at(at, from, to, k, n);
            return Look::Made(self.beat_by(mark, at, signs));
        }
        self.look_on(at)
    }
}
