// The board: what it does with every byte, control code and clock call. It gathers lines, stops and goes on; what runs is the engine's.
#![tactic(auto)]

mod calls;
mod effects;
mod gather;
mod letters;
mod receive;
mod reply;
mod storing;

use count::Refusal;
use engine::{Answer, Engine};

// The line being gathered: its bytes, the rest of the array 0, and whether more than 80 came. An array and a length: fixed memory.
#[derive(Clone, Copy)]
pub struct Line {
    pub bytes: [u8; 80],
    pub len: u8,
    pub over: bool,
}

// The state of a board: what runs, whether it stands stopped, and the line.
#[derive(Clone, Copy)]
pub struct Board {
    pub engine: Engine,
    pub standing: bool,
    pub line: Line,
}

// What receiving a byte comes to: the next state, and the bytes of the reply, or what refuses the call.
#[derive(Clone, Copy)]
pub struct Received {
    pub board: Board,
    pub reply: Result<usize, Refusal>,
}

// What a clock call comes to: the next state, and its answer, or what refuses the call.
#[derive(Clone, Copy)]
pub struct Ticked {
    pub board: Board,
    pub answer: Result<Answer, Refusal>,
}

// The positions or origins of the axes as numbers.
#[repr(C)]
#[derive(Clone, Copy)]
pub struct Point {
    pub x: i32,
    pub y: i32,
    pub z: i32,
    pub a: i32,
}

// A reply that is still to be written: none, one byte, 0 and the positions, 0 and a port's byte, or G with the letter and the place
// of a fault.
#[derive(Clone, Copy)]
pub(crate) enum Saying {
    Silent,
    One(u8),
    Positions,
    Port(u8),
    Fault(u8, u16),
}

// What a byte comes to, before its reply is written: the next state and the reply.
#[derive(Clone, Copy)]
pub(crate) struct Spoke {
    pub board: Board,
    pub say: Saying,
}

// What a received byte is taken for: one more of the line, its end, the character of a wait, nothing, or one of the control codes.
#[derive(Clone, Copy)]
pub(crate) enum Ear {
    Gather,
    Return,
    Listen,
    Ignore,
    Stop,
    Reset,
    Quit,
}

// A line with some bytes more, and how many.
#[derive(Clone, Copy)]
pub(crate) struct Lined {
    pub line: Line,
    pub count: usize,
}

// A board with some bytes more in its line, and how many.
#[derive(Clone, Copy)]
pub struct Taken {
    pub board: Board,
    pub count: usize,
}
