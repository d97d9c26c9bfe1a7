// Whether a program is accepted, and where it would meet another.
ghost use Rattle.std.specs.Prelude.{◌≡◌};
ghost use Rattle.program.specs.Program.{sized};
ghost use Rattle.program.specs.Edges.{acceptance_in, acceptance_of};
ghost use Rattle.program.specs.work.Edges.{leads, told_of};
ghost use Rattle.program.specs.work.Marks.{mark, checked};
ghost use Rattle.program.specs.work.Work.{loop_in, turn_in, far_in};

use crate::Edges;
use crate::arrays::{Places, mark_of};
use crate::ending::decode;
use crate::pass::check_places;
use record::Held;

// Whether no more is in use than a program may have.
#[tactic(auto, unfolding(crate::specs::Program::sized))]
fn is_sized(held: Held) -> bool
    ensures { result ≡ sized held }
{
    (held.used <= 16384) & (held.records <= 1000)
}

// What is told of a program: its edges are looked at if its check passes.
fn told(places: &Places<'_>) -> Option<Edges>
    ensures { acceptance_in result ≡ told_of (checked (loop_in places.now.kinds.now) (turn_in places.now.kinds.now) (far_in places.now.offsets.now) places.now.n)
        (leads (turn_in places.now.kinds.now) (far_in places.now.offsets.now) (mark places.now.n) places.now.n)
        (leads (loop_in places.now.kinds.now) (far_in places.now.offsets.now) (mark 0) places.now.n) }
{
    match check_places(places) {
        Ok(()) => Some(Edges {
            out: places.leads(2, mark_of(places.n)),
            first: places.leads(1, mark_of(0)),
        }),
        Err(_) => None,
    }
}

// The edges of a program that is accepted; each record is read once.
pub fn accepts(store: &[u8], held: Held) -> Option<Edges>
    ensures { acceptance_in result ≡ acceptance_of held store.now }
{
    if !(is_sized(held) & count::axes_set(held.axes)) {
        return None;
    }
    let mut kinds = [0u8; 1000];
    let mut offsets = [0u16; 1000];
    if decode(store, held, &mut kinds, &mut offsets) {
        return told(&Places {
            kinds: &kinds,
            offsets: &offsets,
            n: held.records,
        });
    }
    None
}
