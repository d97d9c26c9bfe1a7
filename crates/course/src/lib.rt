// Runs of clock calls and what `walk` prints of them, in portions of any size.
#![tactic(auto)]

mod glide;
mod going;
mod lines;
mod runs;
mod text;
mod walks;

use board::Board;
use count::Refusal;
use engine::Engine;
use motion::Counters;
pub use runs::run;
use travel::Travel;

// What a run comes to: the board after it, the clock calls used, whether the run is over, and the bytes written, or what refuses it.
#[derive(Clone, Copy)]
pub struct Ran {
    pub board: Board,
    pub calls: u32,
    pub over: bool,
    pub written: Result<usize, Refusal>,
}

// A walk between two portions: the board, the clock calls used for the last byte, and whether its run is over.
#[derive(Clone, Copy)]
pub struct Walk {
    pub board: Board,
    pub calls: u32,
    pub over: bool,
}

// A portion of a walk: the walk after it, and the bytes written.
#[derive(Clone, Copy)]
pub struct Portion {
    pub walk: Walk,
    pub len: usize,
}

// A walk with some bytes of a line taken, and how many.
#[derive(Clone, Copy)]
pub struct Fed {
    pub walk: Walk,
    pub count: usize,
}

// What moves and the counters after some pulses, how many, and the bytes written.
#[derive(Clone, Copy)]
struct Glided {
    pub rest: Travel,
    pub at: Counters,
    pub calls: u32,
    pub len: usize,
}

// The engine after some clock calls, how many, and the bytes written.
#[derive(Clone, Copy)]
struct Went {
    pub engine: Engine,
    pub calls: u32,
    pub len: usize,
}
