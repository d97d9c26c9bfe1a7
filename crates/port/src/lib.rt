// The board for C: its state as a plain struct of numbers, and each call over it. Nothing here decides what a board does: a state is read
// as a board, the board's own call is made, and what it changed is written back.
#![tactic(auto)]

mod answers;
mod calls;
mod code;
mod store;

use board::Point;
pub use calls::{board_clock, board_fresh, board_list, board_receive, board_show};
use circle::Pair;
use motion::{Counters, Move};
use program::Loops;
use record::Held;
pub use store::{board_chain, board_fill, board_join};

// An arc under way: its plane and direction by code.
#[repr(C)]
#[derive(Clone, Copy)]
pub struct Round {
    pub centre: Pair,
    pub start: Pair,
    pub length: u32,
    pub made: u32,
    pub speed: u16,
    pub plane: u8,
    pub direction: u8,
}

// The state of a board. `job` is 0 idle, 1 storing, 2 a direct movement or circle, 3 a program between records, 4 one in a movement or
// circle, 5 one in a delay, 6 one that waits. `kind` says which of the two moves at 2 and 4: 0 `straight`, 1 `round`. `number` is the
// pauses still to come at 5 and the target at 6, `byte` the character at 6. A plane is 0, 1 or 2, a direction 0 clockwise or 1 counter-clockwise, and
// `over`, `standing` and `three` are 0 or 1.
#[repr(C)]
#[derive(Clone, Copy)]
pub struct State {
    pub at: Counters,
    pub origin: Counters,
    pub straight: Move,
    pub round: Round,
    pub held: Held,
    pub place: u16,
    pub number: u16,
    pub loops: Loops,
    pub line: [u8; 80],
    pub len: u8,
    pub over: u8,
    pub standing: u8,
    pub axes: u8,
    pub three: u8,
    pub plane: u8,
    pub direction: u8,
    pub output: u8,
    pub job: u8,
    pub kind: u8,
    pub byte: u8,
}

// What a byte comes to: the next state, the bytes of the reply, and the refusal's number or 0. C reads numbers, here and in the structs below.
#[repr(C)]
#[derive(Clone, Copy)]
pub struct Heard {
    pub state: State,
    pub len: usize,
    pub refusal: u16,
}

// What a clock call comes to: the next state; the answer's kind, 1 a pulse, 2 a pause, 3 a byte to send, 4 a record done, 5 nothing; of a
// pulse which way each axis goes, 1, 0 or -1; its speed, or the byte to send; and the refusal's number or 0.
#[repr(C)]
#[derive(Clone, Copy)]
pub struct Clocked {
    pub state: State,
    pub kind: u8,
    pub x: i8,
    pub y: i8,
    pub z: i8,
    pub a: i8,
    pub value: u16,
    pub refusal: u16,
}

// What listing comes to: the state as it was, the length of the text, and the refusal's number or 0.
#[repr(C)]
#[derive(Clone, Copy)]
pub struct Written {
    pub state: State,
    pub len: u32,
    pub refusal: u16,
}

// What a host shows of a state: it as it was, its positions and origins as numbers, 1 if the next clock call has something to do, and 103
// if the calls refuse it, or 0. The rest stands in the state itself.
#[repr(C)]
#[derive(Clone, Copy)]
pub struct Shown {
    pub state: State,
    pub position: Point,
    pub origin: Point,
    pub runs: u8,
    pub refusal: u16,
}
