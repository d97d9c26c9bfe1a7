// The pulses of a phase one after the other, on what moves and the counters alone; what moves is only read.
ghost use Rattle.std.specs.Prelude.{◌≡◌, ◌≤◌, ◌*◌, length};
ghost use Rattle.travel.specs.declared.Travel.{Travel};
ghost use Rattle.travel.specs.work.Beat.{beaten, made_of, with_made, within_of};
ghost use Rattle.course.specs.work.Glide.{glided, gliding};

use super::Glided;
use super::text::put_pulse;
use circle::Arc;
use motion::{Beat, Counters, Move};
use travel::Travel;

// What moves with so many pulses of its phase made, the counters, and what that took.
fn glided_to(m: Travel, made: u32, at: Counters, calls: u32, len: usize) -> Glided
    ensures { result ≡ record { rest = with_made m made; at = at; calls = calls; len = len } }
{
    Glided {
        rest: m.with_made(made),
        at,
        calls,
        len,
    }
}

// What makes the pulses of a phase: one of the two kinds. A loop over a kind asks which it is once, before it.
trait Pulses: Copy {
    // What it is of what moves.
    ghost travel: { Self → Travel };

    fn travel(self) -> Travel
        ensures { result ≡ travel self };

    // The pulses made of the phase under way.
    fn made(self) -> u32
        ensures { result ≡ made_of (travel self) };

    // The pulse after so many of that phase, or that none is left of it.
    fn beat_in(self, made: u32, at: Counters) -> Option<Beat>
        ensures { result ≡ beaten (within_of (with_made (travel self) made) at) };
}

impl Pulses for Move {
    ghost travel = { Travel.Straight };

    fn travel(self) -> Travel {
        Travel::Straight(self)
    }

    fn made(self) -> u32 {
        self.made
    }

    fn beat_in(self, made: u32, at: Counters) -> Option<Beat> {
        Move::beat_in(self, made, at)
    }
}

impl Pulses for Arc {
    ghost travel = { Travel.Round };

    fn travel(self) -> Travel {
        Travel::Round(self)
    }

    fn made(self) -> u32 {
        self.made
    }

    fn beat_in(self, made: u32, at: Counters) -> Option<Beat> {
        Arc::beat_in(self, made, at)
    }
}

// At most so many pulses of the phase under way of a kind, with thirteen bytes of room for each: fixed memory, so the room is asked with the
// limit.
fn glide_on<P: Pulses>(start: P, from: Counters, turns: bool, limit: u32, out: &mut [u8]) -> Glided
    requires { 13 * limit ≤ length out.old }
    ensures { (glided result out.new ≡ gliding turns limit (P.travel start) from out.old) × (result.len ≤ 13 * result.calls) }
{
    let mut made = start.made();
    let mut at = from;
    let mut k = 0;
    for n in 0..limit {
        let Some(b) = start.beat_in(made, at) else {
            return glided_to(start.travel(), made, at, n, k);
        };
        k += put_pulse(&mut out[k..], turns, b.signs, b.speed);
        made = b.mark.made;
        at = b.at;
    }
    glided_to(start.travel(), made, at, limit, k)
}

// The same of either kind.
pub(crate) fn glide(
    start: Travel,
    from: Counters,
    turns: bool,
    limit: u32,
    out: &mut [u8],
) -> Glided
    requires { 13 * limit ≤ length out.old }
    ensures { (glided result out.new ≡ gliding turns limit start from out.old) × (result.len ≤ 13 * result.calls) }
{
    match start {
        Travel::Straight(m) => glide_on(m, from, turns, limit, out),
        Travel::Round(a) => glide_on(a, from, turns, limit, out),
    }
}
