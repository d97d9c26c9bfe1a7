// The plan of a straight movement and of a circle.
ghost use Rattle.std.specs.Prelude.{◌≡◌};
ghost use Rattle.motion.specs.Plan.{asked};
ghost use Rattle.travel.specs.Plan.{straightly, roundly, plan_of, circle_of};

use super::Travel;
use circle::{Arc, Circling};
use count::Fault;
use motion::{Counters, Move};

fn as_straight(plan: Option<Move>) -> Result<Travel, Fault>
    ensures { result ≡ straightly plan }
{
    match plan {
        Some(m) => Ok(Travel::Straight(m)),
        None => Err(Fault::Outside),
    }
}

fn as_round(bent: Result<Arc, Fault>) -> Result<Travel, Fault>
    ensures { result ≡ roundly bent }
{
    Ok(Travel::Round(bent?))
}

// A straight movement, or 9.
pub fn plan(
    axes: u8,
    three: bool,
    at: Counters,
    origin: Counters,
    absolute: bool,
    words: [u32; 8],
) -> Result<Travel, Fault>
    ensures { result ≡ plan_of (asked axes three at origin absolute words) }
{
    as_straight(motion::plan(axes, three, at, origin, absolute, words))
}

// A circle, or 3, 1, D or 9.
pub fn circle(axes: u8, circling: Circling, at: Counters, words: [u32; 8]) -> Result<Travel, Fault>
    ensures { result ≡ circle_of axes circling at words }
{
    as_round(circle::bend(axes, circling, at, words))
}
