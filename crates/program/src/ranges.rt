// The ranges of loops: from a place on, the first that starts before a mark; whether ranges overlap, and whether one parts two places.
ghost use Rattle.std.specs.Prelude.{◌≡◌, ◌-◌, ◌%◌, get_or};
ghost use Rattle.program.specs.work.Work.{loop_in, far_in};
ghost use Rattle.program.specs.work.Ranges.{Backs};

use crate::arrays::{Places, entry_of, mark_of};

// The place of a mark; place 0 for one before it.
pub(crate) fn place_of(m: u32) -> u32
    ensures { result ≡ m - 32768 }
{
    m.saturating_sub(32768)
}

impl<'a> Places<'a> {
    ghost use Rattle.std.specs.Prelude.{◌+◌, ◌≤◌, ◌<◌};
    ghost use Rattle.program.specs.work.Marks.{mark};
    ghost use Rattle.program.specs.work.Work.{loop_in, far_in};
    ghost use Rattle.program.specs.work.Ranges.{ranged, opening, start_of, reach, Firstly, Backs};

    // Whether place `i` is a loop that goes back, or stays: such a one has a range.
    #[tactic(auto, unfolding(crate::specs::work::Ranges::ranged))]
    pub(crate) fn is_range(&self, i: u16) -> bool
        ensures { result ≡ ranged (loop_in self.now.kinds.now) (far_in self.now.offsets.now) i }
    {
        self.is_loop(i) && self.far(i) <= mark_of(i)
    }

    // Where the range of place `i` starts; of a place without one, that place.
    #[tactic(auto, unfolding(crate::specs::work::Ranges::opening))]
    pub(crate) fn opening(&self, i: u16) -> u16
        ensures { (result ≡ opening (loop_in self.now.kinds.now) (far_in self.now.offsets.now) i) × (result ≤ i) }
    {
        if self.is_range(i) {
            return place_of(self.far(i)) as u16;
        }
        i
    }

    // The mark where the range of place `i` starts; where it has none, the one behind the place.
    #[tactic(auto, unfolding(crate::specs::work::Ranges::start_of))]
    pub(crate) fn start_of(&self, i: u16) -> u32
        ensures { result ≡ start_of (loop_in self.now.kinds.now) (far_in self.now.offsets.now) i }
    {
        if self.is_range(i) {
            return self.far(i);
        }
        mark_of(i) + 1
    }

    // Whether place `i` is a loop whose range starts before mark `s`.
    #[tactic(auto, unfolding(crate::specs::work::Ranges::reach))]
    pub(crate) fn reaches(&self, i: u16, s: u32) -> bool
        ensures { result ≡ reach (loop_in self.now.kinds.now) (far_in self.now.offsets.now) s i }
    {
        self.is_loop(i) && self.far(i) < s
    }

    // The first place from `k` on that is a loop whose range starts before mark `s`, or `n`. From place to place the notes tell which it can
    // be next: what lies between starts no earlier than the place itself.
    pub(crate) fn first_back(&self, notes: &[u16], k: u16, s: u32) -> u16
        requires { Backs (loop_in self.now.kinds.now) (far_in self.now.offsets.now) notes.now self.now.n k × (k ≤ self.now.n) × (s ≤ mark k + 1) }
        ensures { Firstly (reach (loop_in self.now.kinds.now) (far_in self.now.offsets.now) s) k self.now.n result }
    {
        // A jump from note to note, no count.
        let mut i = k;
        while i < self.n {
            if self.reaches(i, s) {
                return i;
            }
            i = back_at(notes, i);
        }
        i
    }
}

// Of the note of a place: the first loop behind it whose range starts before its own.
fn back_at(notes: &[u16], i: u16) -> u16
    ensures { result ≡ get_or notes.now i 0 % 1024 }
{
    entry_of(notes, i, 0) % 1024
}

// The places with a note for each: how many ranges start there, and the first loop behind it whose range starts before its own.
#[derive(Clone, Copy)]
pub(crate) struct Noted<'a> {
    pub(crate) places: Places<'a>,
    pub(crate) notes: &'a [u16],
    ghost backs: { Backs (loop_in places.kinds.now) (far_in places.offsets.now) notes.now places.n 0 },
}

impl<'a> Noted<'a> {
    ghost use Rattle.std.specs.Prelude.{◌≤◌, ◌<◌};
    ghost use Rattle.program.specs.Check.{some};
    ghost use Rattle.program.specs.work.Marks.{mark, overlaps};
    ghost use Rattle.program.specs.work.Ranges.{starts_of, differ};

    // How many ranges start at place `i`, up to eight.
    pub(crate) fn starts_at(&self, i: u16) -> u16
        ensures { result ≡ starts_of self.now.notes.now i }
    {
        entry_of(self.notes, i, 0) / 1024
    }

    // c: whether the range of place `p` and that of an earlier loop overlap with neither holding the other.
    pub(crate) fn overlaps(&self, p: u16) -> bool
        requires { p < self.now.places.n }
        ensures { result ≡ overlaps (loop_in self.now.places.kinds.now) (far_in self.now.places.offsets.now) p }
    {
        if self.places.is_loop(p) {
            let f = self.places.far(p);
            let k = place_of(f);
            if k < u32::from(p) {
                return self.places.first_back(self.notes, k as u16, f) < p;
            }
        }
        false
    }

    // Whether a range holds one of the places `lo` and `hi` and not the other: it ends between them, or starts between them.
    pub(crate) fn parted(&self, lo: u16, hi: u16) -> bool
        requires { (lo ≤ hi) × (hi ≤ self.now.places.n) }
        ensures { result ≡ some self.now.places.n (differ (loop_in self.now.places.kinds.now) (far_in self.now.places.offsets.now) (mark lo) (mark hi)) }
    {
        let m = mark_of(lo) + 1;
        let first = self.places.first_back(self.notes, lo, m);
        if first < hi {
            return true;
        }
        let s = mark_of(hi) + 1;
        // Likewise a jump, to behind what was found.
        let mut k = hi;
        while k < self.places.n {
            let i = self.places.first_back(self.notes, k, s);
            let near = self.places.reaches(i, m);
            if (i < self.places.n) & !near {
                return true;
            }
            k = i + 1;
        }
        false
    }
}
