// A program over the arrays of a call.
ghost use Rattle.std.specs.Prelude.{◌≡◌, ◌≤◌, get_or};
ghost use Rattle.program.specs.work.Marks.{mark};

// An entry of an array, `none` past its end.
pub(crate) fn entry_of<T: Copy>(s: &[T], i: u16, none: T) -> T
    ensures { result ≡ get_or s.now i none }
{
    s.get(usize::from(i)).copied().unwrap_or(none)
}

pub(crate) fn mark_of(p: u16) -> u32
    ensures { result ≡ mark p }
{
    u32::from(p) + 32768
}

// What each of `n` places is (0 goes on, 1 a loop, 2 a jump or wait) and its offset, counted from -32,768.
#[derive(Clone, Copy)]
pub(crate) struct Places<'a> {
    pub(crate) kinds: &'a [u8],
    pub(crate) offsets: &'a [u16],
    pub(crate) n: u16,
    ghost few: { n ≤ 1000 },
}

impl<'a> Places<'a> {
    ghost use Rattle.std.specs.Prelude.{◌&&◌, ◌==◌};
    ghost use Rattle.std.specs.List.{list_any, range_with_len};
    ghost use Rattle.program.specs.work.Edges.{kind_is};
    ghost use Rattle.program.specs.work.Marks.{early, outside};
    ghost use Rattle.program.specs.work.Work.{loop_in, turn_in, far_in};

    pub(crate) fn is_loop(&self, i: u16) -> bool
        ensures { result ≡ loop_in self.now.kinds.now i }
    {
        entry_of(self.kinds, i, 0) == 1
    }

    pub(crate) fn is_turn(&self, i: u16) -> bool
        ensures { result ≡ turn_in self.now.kinds.now i }
    {
        entry_of(self.kinds, i, 0) == 2
    }

    // The mark of where place `i` leads to.
    pub(crate) fn far(&self, i: u16) -> u32
        ensures { result ≡ far_in self.now.offsets.now i }
    {
        u32::from(i) + u32::from(entry_of(self.offsets, i, 0))
    }

    // Whether a place of this kind leads to a mark.
    pub(crate) fn leads(&self, kind: u8, m: u32) -> bool
        ensures { result ≡ list_any (λ i. kind_is self.now.kinds.now kind i && (far_in self.now.offsets.now i == m)) (range_with_len 0 self.now.n) }
    {
        (0..self.n).any(|i| (entry_of(self.kinds, i, 0) == kind) & (self.far(i) == m))
    }

    #[tactic(auto, unfolding(crate::specs::work::Marks::outside))]
    pub(crate) fn outside(&self, p: u16) -> bool
        ensures { result ≡ outside (turn_in self.now.kinds.now) (far_in self.now.offsets.now) self.now.n p }
    {
        if self.is_turn(p) {
            let f = self.far(p);
            return (f < 32768) | (mark_of(self.n) < f);
        }
        false
    }

    #[tactic(auto, unfolding(crate::specs::work::Marks::early, crate::specs::work::Ranges::reach))]
    pub(crate) fn early(&self, p: u16) -> bool
        ensures { result ≡ early (loop_in self.now.kinds.now) (far_in self.now.offsets.now) p }
    {
        self.reaches(p, 32768)
    }
}
