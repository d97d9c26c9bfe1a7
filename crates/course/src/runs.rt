// A run of clock calls on a board, with its refusals.
ghost use Rattle.std.specs.Prelude.{◌≡◌, ◌/◌, min};
ghost use Rattle.record.specs.Memory.{memory};
ghost use Rattle.count.specs.Refusals.{number_of};
ghost use Rattle.board.specs.Calls.{len_in};
ghost use Rattle.course.specs.Run.{ran_in, runs_now, did_run, run_outcome};
ghost use Rattle.course.specs.work.Work.{stood};

use super::Ran;
use super::going::go;
use board::Board;
use count::Refusal;

// Whether something runs and does not stand stopped.
pub(crate) fn runs_now(board: Board) -> bool
    ensures { result ≡ runs_now board }
{
    board.engine.runs() & !board.standing
}

// The clock calls that a limit and a buffer of this length allow: thirteen bytes for each.
fn allowed_by(limit: u32, len: usize) -> u32
    ensures { result ≡ min limit (len / 13) }
{
    let most = len / 13;
    if most < limit as usize {
        return most as u32;
    }
    limit
}

impl Ran {
    // The bytes written; none where the run is refused.
    pub fn len(self) -> usize
        ensures { result ≡ len_in self.written }
    {
        match self.written {
            Ok(n) => n,
            Err(_) => 0,
        }
    }
}

// No call was made.
fn rest(board: Board) -> Ran
    ensures { ran_in result ≡ stood 0 board }
{
    Ran {
        board,
        calls: 0,
        over: !runs_now(board),
        written: Ok(0),
    }
}

fn refuse(board: Board, refusal: Refusal) -> Ran
    ensures { ran_in result ≡ stood (number_of refusal) board }
{
    Ran {
        board,
        calls: 0,
        over: !runs_now(board),
        written: Err(refusal),
    }
}

// Clock calls until the board is idle, storing, stopped or waiting, at most so many, and what `walk` prints of them.
pub fn run(board: Board, store: &[u8], table: &[u16], limit: u32, out: &mut [u8]) -> Ran
    ensures { did_run (ran_in result) out.new ≡ run_outcome limit board (memory store.now table.now) out.old }
{
    if store.len() != 16384 {
        return refuse(board, Refusal::Store);
    }
    if !board.sound() {
        return refuse(board, Refusal::State);
    }
    if table.len() != 1000 {
        return refuse(board, Refusal::Table);
    }
    if board.standing {
        return rest(board);
    }
    let most = allowed_by(limit, out.len());
    let w = go(board.engine, store, table, most, out);
    let next = Board {
        engine: w.engine,
        ..board
    };
    Ran {
        board: next,
        calls: w.calls,
        over: !runs_now(next),
        written: Ok(w.len),
    }
}
