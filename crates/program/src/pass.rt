// The check as one pass over the places: the ranges that hold a place are counted on the way.
ghost use Rattle.std.specs.Prelude.{◌≡◌, length};
ghost use Rattle.program.specs.Verdict.{verdict};
ghost use Rattle.program.specs.work.Marks.{checked};
ghost use Rattle.program.specs.work.Work.{loop_in, turn_in, far_in};
ghost use Rattle.program.specs.work.Ranges.{fuller, Counts};

use crate::arrays::Places;
use crate::ranges::{Noted, place_of};
use crate::{Flaw, Rule};

impl<'a> Noted<'a> {
    ghost use Rattle.std.specs.Prelude.{false, ◌<◌};
    ghost use Rattle.program.specs.Verdict.{letter_in, verdict};
    ghost use Rattle.program.specs.work.Marks.{outside, strays, checked};
    ghost use Rattle.program.specs.work.Work.{loop_in, turn_in, far_in};
    ghost use Rattle.program.specs.work.Ranges.{letter_by, Starts};

    // e: whether place `p` is a jump or wait that doesn't lie in the same ranges as its target.
    fn strays(&self, p: u16) -> bool
        requires { (p < self.now.places.n) × (outside (turn_in self.now.places.kinds.now) (far_in self.now.places.offsets.now) self.now.places.n p ≡ false) }
        ensures { result ≡ strays (loop_in self.now.places.kinds.now) (turn_in self.now.places.kinds.now) (far_in self.now.places.offsets.now) self.now.places.n p }
    {
        if self.places.is_turn(p) {
            let t = place_of(self.places.far(p)) as u16;
            if t < p {
                return self.parted(t, p);
            }
            return self.parted(p, t);
        }
        false
    }

    // What place `p`, which `held` ranges hold, is at fault for. That it is a place is asked: a type for it would hold the places too.
    #[tactic(auto, unfolding(crate::specs::work::Ranges::letter_by))]
    fn fault_at(&self, held: u16, p: u16) -> Option<Rule>
        requires { p < self.now.places.n }
        ensures { letter_in result ≡ letter_by (loop_in self.now.places.kinds.now) (turn_in self.now.places.kinds.now) (far_in self.now.places.offsets.now) self.now.places.n held p }
    {
        if self.places.outside(p) {
            return Some(Rule::Outside);
        }
        if self.places.early(p) {
            return Some(Rule::Early);
        }
        if self.overlaps(p) {
            return Some(Rule::Overlaps);
        }
        if 7 < held {
            return Some(Rule::Crowded);
        }
        if self.strays(p) {
            return Some(Rule::Strays);
        }
        None
    }

    // The first fault: at each place the ranges that start there are added, and behind it the one that ends there is taken off.
    fn first_fault(&self) -> Result<(), Flaw>
        requires { Starts (loop_in self.now.places.kinds.now) (far_in self.now.places.offsets.now) self.now.notes.now self.now.places.n }
        ensures { verdict result ≡ checked (loop_in self.now.places.kinds.now) (turn_in self.now.places.kinds.now) (far_in self.now.places.offsets.now) self.now.places.n }
    {
        let mut on = 0;
        for p in 0..self.places.n {
            let held = on + self.starts_at(p);
            if let Some(rule) = self.fault_at(held, p) {
                return Err(Flaw::Fault(rule, p));
            }
            on = held - u16::from(self.places.is_range(p));
        }
        Ok(())
    }
}

// One range more that starts at a place, up to eight: more than seven are too many.
#[tactic(auto, unfolding(crate::specs::work::Ranges::fuller))]
fn fuller(note: u16, more: bool) -> u16
    ensures { result ≡ fuller note more }
{
    if more & (note < 8192) {
        return note + 1024;
    }
    note
}

// The check, once it is noted how many ranges start at each place: it is noted too, from the last place on, which loop behind it is the
// first whose range starts before its own.
fn check_starts(notes: &mut [u16], places: &Places<'_>) -> Result<(), Flaw>
    requires { Counts (loop_in places.now.kinds.now) (far_in places.now.offsets.now) notes.old places.now.n × (length notes.old ≡ 1000) }
    ensures { verdict result ≡ checked (loop_in places.now.kinds.now) (turn_in places.now.kinds.now) (far_in places.now.offsets.now) places.now.n }
{
    for i in (0..places.n).rev() {
        let s = places.start_of(i);
        let b = places.first_back(&notes[..], i + 1, s);
        notes[usize::from(i)] += b;
    }
    let noted = Noted {
        places: *places,
        notes: &notes[..],
    };
    noted.first_fault()
}

// The check of a program, in as many steps as there are places: first it is noted how many ranges start at each.
pub(crate) fn check_places(places: &Places<'_>) -> Result<(), Flaw>
    ensures { verdict result ≡ checked (loop_in places.now.kinds.now) (turn_in places.now.kinds.now) (far_in places.now.offsets.now) places.now.n }
{
    let mut notes = [0u16; 1000];
    for i in 0..places.n {
        let at = usize::from(places.opening(i));
        notes[at] = fuller(notes[at], places.is_range(i));
    }
    check_starts(&mut notes, places)
}
