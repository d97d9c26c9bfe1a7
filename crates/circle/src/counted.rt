// A point of a plane whose counts lie within 24 bits.
ghost use Rattle.std.specs.Prelude.{◌≡◌, ◌<◌};
ghost use Rattle.count.specs.Axes.{Each};
ghost use Rattle.motion.specs.Axes.{on};
ghost use Rattle.circle.specs.Rule.{on_plane};

use super::rule::on_plane;
use super::{Pair, Plane};
use motion::Counters;

#[derive(Clone, Copy)]
pub(crate) struct Counted {
    pub(crate) pair: Pair,
    ghost in_range: { (pair.first < 16777216) × (pair.second < 16777216) },
}

impl Counted {
    // Made count by count: where the pair is copied whole, the compiler takes it apart again, and a pulse takes longer.
    pub(crate) fn of(p: Pair) -> Counted
        requires { (p.first < 16777216) × (p.second < 16777216) }
        ensures { result.pair ≡ p }
    {
        Counted {
            pair: Pair {
                first: p.first,
                second: p.second,
            },
        }
    }

    // Where the axes of a plane stand.
    pub(crate) fn on_plane(plane: Plane, at: Counters) -> Counted
        requires { Each (λ i. on i at < 16777216) }
        ensures { result.pair ≡ on_plane plane at }
    {
        Counted::of(on_plane(plane, at))
    }
}
