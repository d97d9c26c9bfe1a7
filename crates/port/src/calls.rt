// The board's calls for C, refused in the board's own order: a state that no board has is refused where one that 103 names is.
ghost use Rattle.std.specs.Prelude.{◌≡◌, true, ◌%◌, length};
ghost use Rattle.record.specs.Memory.{memory};
ghost use Rattle.engine.specs.work.Acts.{is_wrong};
ghost use Rattle.board.specs.Calls.{lent, clocking};
ghost use Rattle.port.specs.Code.{ports_of, known, board_of};
ghost use Rattle.port.specs.work.Work.{is_still};
ghost use Rattle.port.specs.Calls.{fresh_state, clocked_by, ticked_state, clocking_state, heard, heard_by, hearing_state, written_by, listed, listing_state, shown_by, showing};

use crate::answers::clocked;
use crate::code::as_flag;
use crate::store::refusal_of;
use crate::{Clocked, Heard, Shown, State, Written};
use board::Board;
use engine::{Act, Answer};

// A fresh board.
pub fn board_fresh() -> State
    ensures { result ≡ fresh_state }
{
    State::blank().with_board(Board::fresh())
}

// ---- a clock call

// Whether 103 refuses the engine.
fn is_refused(act: Act) -> bool
    ensures { result ≡ is_wrong act }
{
    matches!(act, Act::Wrong)
}

// Whether nothing runs.
fn is_still(act: Act) -> bool
    ensures { result ≡ is_still act }
{
    matches!(act, Act::Still)
}

// A clock call that no length and no code of the state refuses. Of a pulse only the counters and the mark are written, and where nothing
// runs nothing is.
fn tick(state: State, store: &[u8], table: &[u16]) -> Clocked
    requires { (known state ≡ true) × (length store.now ≡ 16384) }
    ensures { result ≡ ticked_state state (clocking (board_of state) (memory store.now table.now)) }
{
    let e = state.engine();
    let act = e.see();
    if is_refused(act) | (80 < state.len) {
        return clocked(state, Answer::Nothing, 103);
    }
    if table.len() != 1000 {
        return clocked(state, Answer::Nothing, 104);
    }
    if (state.standing == 1) | is_still(act) {
        return clocked(state, Answer::Nothing, 0);
    }
    if let Act::Pulse(b) = act {
        let mut next = state;
        next.at = b.at;
        if state.kind == 0 {
            next.straight.phase = b.mark.phase;
            next.straight.made = b.mark.made;
            return clocked(next, Answer::Pulse(b.signs, b.speed), 0);
        }
        next.round.made = b.mark.made;
        return clocked(next, Answer::Pulse(b.signs, b.speed), 0);
    }
    let t = e.act(act, store, table);
    clocked(state.with_engine(t.engine), t.answer, 0)
}

pub fn board_clock(state: State, store: &[u8], table: &[u16]) -> Clocked
    ensures { result ≡ clocking_state state (memory store.now table.now) }
{
    if store.len() != 16384 {
        return clocked(state, Answer::Nothing, 102);
    }
    if !state.is_known() {
        return clocked(state, Answer::Nothing, 103);
    }
    tick(state, store, table)
}

// ---- a byte received

fn unheard(state: State, refusal: u16) -> Heard
    ensures { result ≡ heard_by refusal 0 state }
{
    Heard {
        state,
        len: 0,
        refusal,
    }
}

// The lowest byte of a word.
fn low(w: u32) -> u8
    ensures { result ≡ w % 256 }
{
    (w % 256) as u8
}

// The four input ports in a word, the first in its lowest byte.
fn ports_of(w: u32) -> [u8; 4]
    ensures { result ≡ ports_of w }
{
    [low(w), low(w / 256), low(w / 65536), low(w / 16777216)]
}

pub fn board_receive(
    state: State,
    byte: u8,
    ports: u32,
    reply: &mut [u8],
    store: &mut [u8],
    table: &mut [u16],
) -> Heard
    ensures { heard result (lent reply.new (memory store.new table.new)) ≡ hearing_state byte (ports_of ports) state (lent reply.old (memory store.old table.old)) }
{
    if reply.len() < 32 {
        return unheard(state, 101);
    }
    if store.len() != 16384 {
        return unheard(state, 102);
    }
    if !state.is_known() {
        return unheard(state, 103);
    }
    let t = state
        .open()
        .receive(byte, ports_of(ports), reply, store, table);
    Heard {
        state: state.with_board(t.board),
        len: t.len(),
        refusal: refusal_of(t.reply),
    }
}

// ---- the lister

fn written(state: State, len: u32, refusal: u16) -> Written
    ensures { result ≡ written_by refusal len state }
{
    Written {
        state,
        len,
        refusal,
    }
}

pub fn board_list(state: State, store: &[u8], text: &mut [u8]) -> Written
    ensures { listed result text.new ≡ listing_state state store.now text.old }
{
    if store.len() != 16384 {
        return written(state, 0, 102);
    }
    if !state.is_known() {
        return written(state, 0, 103);
    }
    let listed = state.open().list(store, text);
    written(state, listed.unwrap_or(0), refusal_of(listed))
}

// ---- what a host shows

fn shown(state: State, board: Board, runs: bool, refusal: u16) -> Shown
    ensures { result ≡ shown_by refusal runs board state }
{
    Shown {
        state,
        position: board.position(),
        origin: board.origin(),
        runs: as_flag(runs),
        refusal,
    }
}

pub fn board_show(state: State) -> Shown
    ensures { result ≡ showing state }
{
    let board = state.open();
    if !state.is_known() | !board.sound() {
        return shown(state, board, false, 103);
    }
    shown(state, board, board.engine.runs() & !board.standing, 0)
}
