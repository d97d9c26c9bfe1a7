// A walk in portions: the first line, a byte with its run, a run that goes on, and the last lines.
ghost use Rattle.std.specs.Prelude.{◌≡◌, ◌&&◌, ◌+◌, ◌-◌, ◌≤◌, leb, eqb};
ghost use Rattle.record.specs.Memory.{memory};
ghost use Rattle.board.specs.State.{sound};
ghost use Rattle.count.specs.Text.{written};
ghost use Rattle.course.specs.Walk.{first, most, head_done, next_done, on_done, tail_done};
ghost use Rattle.course.specs.Walk.{done_of};
ghost use Rattle.course.specs.work.Work.{same};
ghost use Rattle.course.specs.work.Feed.{fed_of};

use super::going::is_turning;
use super::lines::{put_end, put_head, put_limit, put_reply};
use super::runs::{run, runs_now};
use super::{Fed, Portion, Walk};
use board::Board;

// The clock calls for each byte.
const MOST: u32 = 100000;

// What is left of them.
fn left_of(calls: u32) -> u32
    ensures { result ≡ most - calls }
{
    MOST.saturating_sub(calls)
}

// The calls before and those of a run that went on.
fn sum_of(calls: u32, more: u32) -> u32
    requires { more ≤ most - calls }
    ensures { result ≡ calls + more }
{
    calls + more
}

// The end of a text behind another in a buffer of so many bytes.
fn end_of(n: usize, more: usize, total: usize) -> usize
    requires { n + more ≤ total }
    ensures { result ≡ n + more }
{
    n + more
}

impl Walk {
    // A fresh board, nothing under way.
    pub fn new() -> Walk
        ensures { result ≡ first }
    {
        Walk {
            board: Board::fresh(),
            calls: 0,
            over: true,
        }
    }

    // The first line; a buffer of fewer than 64 bytes stays as it is.
    pub fn head(out: &mut [u8]) -> usize
        ensures { written result out.new ≡ head_done out.old }
    {
        if out.len() < 64 {
            return 0;
        }
        put_head(out)
    }

    // Nothing is taken and nothing written.
    fn stay(self) -> Portion
        ensures { result ≡ same self }
    {
        Portion { walk: self, len: 0 }
    }

    // Whether a portion can be made with a store, a table and a buffer of these lengths.
    fn is_ready(self, store: usize, table: usize, out: usize) -> bool
        ensures { result ≡ leb 64 out && eqb store 16384 && sound self.board && eqb table 1000 }
    {
        (64 <= out) & (store == 16384) & self.board.sound() & (table == 1000)
    }

    // A byte, if the run before it is over: its reply, and as much of its run as the rest of the buffer holds.
    pub fn next(self, byte: u8, store: &mut [u8], table: &mut [u16], out: &mut [u8]) -> Portion
        ensures { done_of result (memory store.new table.new) out.new ≡ next_done byte self (memory store.old table.old) out.old }
    {
        if !self.over {
            return self.stay();
        }
        if !self.is_ready(store.len(), table.len(), out.len()) {
            return self.stay();
        }
        let heard = self
            .board
            .receive(byte, [0u8; 4], &mut out[2..], &mut *store, &mut *table);
        let n = put_reply(&mut *out, heard.len());
        let next = heard.board;
        if !runs_now(next) {
            let still = Walk {
                board: next,
                calls: 0,
                over: true,
            };
            return Portion {
                walk: still,
                len: n,
            };
        }
        let ran = run(next, &*store, &*table, MOST, &mut out[n..]);
        let walk = Walk {
            board: ran.board,
            calls: ran.calls,
            over: ran.over,
        };
        let len = end_of(n, ran.len(), out.len());
        Portion { walk, len }
    }

    // The bytes at the front of an input that only go into the line, if the run before them is over: nothing runs and nothing is printed.
    pub fn feed(self, input: &[u8]) -> Fed
        ensures { result ≡ fed_of input.now self }
    {
        let taken = self.board.take(input);
        if !self.over | (taken.count == 0) {
            return Fed {
                walk: self,
                count: 0,
            };
        }
        let walk = Walk {
            board: taken.board,
            calls: 0,
            over: true,
        };
        Fed {
            walk,
            count: taken.count,
        }
    }

    // A run that is not over goes on, up to its 100,000 calls.
    pub fn go_on(self, store: &[u8], table: &[u16], out: &mut [u8]) -> Portion
        ensures { done_of result (memory store.now table.now) out.new ≡ on_done self (memory store.now table.now) out.old }
    {
        if self.over {
            return self.stay();
        }
        if !self.is_ready(store.len(), table.len(), out.len()) {
            return self.stay();
        }
        let ran = run(self.board, store, table, left_of(self.calls), out);
        let walk = Walk {
            board: ran.board,
            calls: sum_of(self.calls, ran.calls),
            over: ran.over,
        };
        Portion {
            walk,
            len: ran.len(),
        }
    }

    // The last lines: the limit if the run is not over, and the end; a buffer of fewer than 64 bytes stays as it is.
    pub fn tail(self, out: &mut [u8]) -> usize
        ensures { written result out.new ≡ tail_done self out.old }
    {
        if out.len() < 64 {
            return 0;
        }
        let at = self.board.engine.at;
        let turns = is_turning(self.board.engine);
        if self.over {
            return put_end(out, turns, at);
        }
        let n = put_limit(&mut *out);
        let k = put_end(&mut out[n..], turns, at);
        n + k
    }
}
