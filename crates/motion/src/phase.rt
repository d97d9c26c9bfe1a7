// One phase: its pulses, and what the next of them does to an axis.
ghost use Rattle.std.specs.Prelude.{◌≡◌, ◌≤◌, ◌<◌};
ghost use Rattle.count.specs.Numbers.{far};
ghost use Rattle.motion.specs.work.Here.{sign_here};
ghost use Rattle.motion.specs.Phase.{pulses};
ghost use Rattle.motion.specs.work.Room.{RoomFor};

use super::{Counters, Sign};

// The pulses of a phase; none if a distance is beyond 24 bits.
pub(crate) fn pulses_of(from: Counters, to: Counters) -> u32
    ensures { result ≡ pulses from to }
{
    let x = count::distance(from.x, to.x);
    let y = count::distance(from.y, to.y);
    let z = count::distance(from.z, to.z);
    let a = count::distance(from.a, to.a);
    let n = x.max(y.max(z.max(a)));
    if 16777215 < n {
        return 0;
    }
    n
}

// What the pulse after pulse k of n shows on an axis that goes from one count to another and stands at a third: no division, and the same
// two products as in the test of 103. The ends, k and n stay parameters: most functions that ask for them are of one axis, not of points.
pub(crate) fn sign_here(at: u32, from: u32, to: u32, k: u32, n: u32) -> Sign
    requires { (k < n) × (n < 16777216) × (far from to ≤ n) }
    ensures { (result ≡ sign_here at from to k n) × RoomFor at result }
{
    let d = count::distance(from, to) as u64;
    let s = count::distance(from, at) as u64;
    let wide_n = n as u64;
    let wide_k = k as u64;
    if 2 * wide_k * d + wide_n + 2 * d < 2 * wide_n * s + 2 * wide_n {
        return Sign::Rest;
    }
    if to < from {
        return Sign::Minus;
    }
    Sign::Plus
}
