// One pulse on the counters, whatever it is a pulse of.
ghost use Rattle.std.specs.Prelude.{◌≡◌};
ghost use Rattle.motion.specs.Pulse.{has_step, step_to};

use super::pulse::with_pulse;
use super::{Counters, Sign, Signs};

// Whether a count has a step left in the direction of a sign.
fn has_step(c: u32, s: Sign) -> bool
    ensures { result ≡ has_step c s }
{
    match s {
        Sign::Minus => 0 < c,
        Sign::Rest => true,
        Sign::Plus => c < 16777215,
    }
}

// The counters with one pulse's signs, or that one of them would leave 24 bits.
pub fn step_to(c: Counters, s: Signs) -> Option<Counters>
    ensures { result ≡ step_to c s }
{
    let x = has_step(c.x, s.x);
    let y = has_step(c.y, s.y);
    let z = has_step(c.z, s.z);
    let a = has_step(c.a, s.a);
    if x & y & z & a {
        return Some(with_pulse(c, s));
    }
    None
}
