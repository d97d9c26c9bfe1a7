// The pulses of an arc.
ghost use Rattle.std.specs.Prelude.{◌≡◌};
ghost use Rattle.circle.specs.Rule.{on_axes, measure, ways_at, move_of};
ghost use Rattle.circle.specs.Arc.{zero, counted_pair, arc_beat, with_made, arc_left};

use super::counted::Counted;
use super::rule::{measured, move_by, on_axes, ways_of};
use super::{Arc, Circling, Pair};
use motion::{Beat, Counters, Mark, Signs};

// Whether the counts of a point are of 24 bits.
fn is_counted(p: Pair) -> bool
    ensures { result ≡ counted_pair p }
{
    count::in_range(p.first) & count::in_range(p.second)
}

// The centre of what is counted from it.
pub(crate) fn at_centre() -> Pair
    ensures { result ≡ zero }
{
    Pair {
        first: 8388608,
        second: 8388608,
    }
}

// x² + y² at a start.
pub(crate) fn start_value(start: Counted) -> u64
    ensures { result ≡ measure zero start.pair }
{
    measured(at_centre(), start.pair)
}

// What the next pulse shows.
fn signs(circling: Circling, centre: Counted, start: Counted, at: Counted) -> Signs
    ensures { result ≡ on_axes circling.plane
        (move_of (measure zero start.pair) centre.pair at.pair (ways_at circling.direction centre.pair at.pair)) }
{
    let w = ways_of(circling.direction, centre.pair, at.pair);
    let turn = move_by(start_value(start), centre, at, w);
    on_axes(circling.plane, turn)
}

impl Arc {
    // The pulse after so many, or that none is left.
    pub fn beat_in(self, made: u32, at: Counters) -> Option<Beat>
        ensures { result ≡ arc_beat (with_made self made) at }
    {
        if self.length <= made {
            return None;
        }
        // One test of all: with an `Option` of each point a pulse takes longer.
        if !(motion::counted_at(at) & is_counted(self.centre) & is_counted(self.start)) {
            return None;
        }
        let centre = Counted::of(self.centre);
        let start = Counted::of(self.start);
        let p = Counted::on_plane(self.circling.plane, at);
        let signs = signs(self.circling, centre, start, p);
        let there = motion::step_to(at, signs)?;
        Some(Beat {
            signs,
            speed: self.speed,
            at: there,
            mark: Mark {
                phase: 0,
                made: made + 1,
            },
        })
    }

    // The next pulse, or that none is left.
    pub fn beat(self, at: Counters) -> Option<Beat>
        ensures { result ≡ arc_beat self at }
    {
        self.beat_in(self.made, at)
    }

    // The same arc with so many pulses made.
    pub fn with_made(self, made: u32) -> Arc
        ensures { result ≡ with_made self made }
    {
        Arc { made, ..self }
    }

    // The pulses still to make.
    pub fn left(self) -> u32
        ensures { result ≡ arc_left self }
    {
        self.length.saturating_sub(self.made)
    }
}
