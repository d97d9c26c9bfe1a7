// Clock calls one after the other on an engine; the pulses of a movement go round on movement and counters alone.
ghost use Rattle.std.specs.Prelude.{◌≡◌, ◌≤◌, ◌*◌, length};
ghost use Rattle.record.specs.Memory.{memory};
ghost use Rattle.course.specs.work.Machine.{left_by};
ghost use Rattle.course.specs.Text.{turning};
ghost use Rattle.course.specs.work.Going.{went_of, glide_job, go_way};

use super::Went;
use super::glide::glide;
use super::text::put_answer;
use count::Axis;
use engine::Engine;

fn stay(engine: Engine) -> Went
    ensures { result ≡ record { engine = engine; calls = 0; len = 0 } }
{
    Went {
        engine,
        calls: 0,
        len: 0,
    }
}

// Whether A is set, so that its sign and its position are printed.
pub(crate) fn is_turning(e: Engine) -> bool
    ensures { result ≡ turning e }
{
    count::has(e.axes as u32, Axis::A)
}

// The pulses of what is under way, if it is a movement.
fn glide_on(e: Engine, limit: u32, out: &mut [u8]) -> Went
    requires { 13 * limit ≤ length out.old }
    ensures { (went_of result out.new ≡ left_by (glide_job e.run.job limit e) out.old) × (result.len ≤ 13 * result.calls) }
{
    let under = e.under_way();
    let Some(m) = under else {
        return stay(e);
    };
    let turns = is_turning(e);
    let g = glide(m, e.at, turns, limit, out);
    let rest = g.rest;
    let there = g.at;
    Went {
        engine: e.glide(there, rest),
        calls: g.calls,
        len: g.len,
    }
}

// At most so many clock calls, with thirteen bytes of room for each: a turn makes one or several, so that `n` is no counter of turns. Store, table
// and buffer are the host's, lent one by one.
pub(crate) fn go(start: Engine, store: &[u8], table: &[u16], limit: u32, out: &mut [u8]) -> Went
    requires { 13 * limit ≤ length out.old }
    ensures { went_of result out.new ≡ left_by (go_way (memory store.now table.now) limit start) out.old }
{
    let mut e = start;
    let mut n: u32 = 0;
    let mut at = 0;
    // `n` counts clock calls, of which a turn makes several: no `for`.
    while n < limit {
        if !e.runs() {
            return Went {
                engine: e,
                calls: n,
                len: at,
            };
        }
        let turns = is_turning(e);
        let t = e.tick(store, table);
        let answer = t.answer;
        let next = t.engine;
        let k = put_answer(&mut out[at..], turns, answer);
        let mid = at + k;
        let done = n + 1;
        let w = glide_on(next, limit - done, &mut out[mid..]);
        let last = w.engine;
        e = last;
        at = mid + w.len;
        n = done + w.calls;
    }
    Went {
        engine: e,
        calls: n,
        len: at,
    }
}
