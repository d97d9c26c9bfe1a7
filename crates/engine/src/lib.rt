// What runs: the state of axes, store and run, and one clock call on it. It knows no line, no stop and no standing.
#![tactic(auto)]

mod circles;
mod records;
mod sound;
mod state;
mod tick;

use circle::Circling;
use motion::{Beat, Counters, Signs};
use program::Loops;
use record::Held;
use travel::Travel;

// What a clock call answers.
#[derive(Clone, Copy)]
pub enum Answer {
    Pulse(Signs, u16),
    Pause,
    Send(u8),
    Done,
    Nothing,
}

// What is under way: nothing; storing; a direct movement or circle; a program between records, in a movement or circle, in a delay with so
// many pauses after the next one, or waiting for a character with its target.
#[derive(Clone, Copy)]
pub enum Job {
    Idle,
    Storing,
    Direct(Travel),
    Ready,
    Moving(Travel),
    Delay(u16),
    Wait(u8, u16),
}

// A run: the job, the next record's place and the open loops.
#[derive(Clone, Copy)]
pub struct Run {
    pub job: Job,
    pub place: u16,
    pub loops: Loops,
}

#[derive(Clone, Copy)]
pub struct Engine {
    pub axes: u8,
    pub at: Counters,
    pub origin: Counters,
    pub three: bool,
    pub circling: Circling,
    pub output: u8,
    pub held: Held,
    pub run: Run,
}

// The engine after a clock call, and the answer.
#[derive(Clone, Copy)]
pub struct Told {
    pub engine: Engine,
    pub answer: Answer,
}

// What a clock call does, decided before it is done: nothing, since 103 refuses the state; nothing, since nothing runs; a pulse; a pause
// with so many after it; the 0 after the last pulse; or the record at the place. Six things, and so no Option or Result.
#[derive(Clone, Copy)]
pub enum Act {
    Wrong,
    Still,
    Pulse(Beat),
    Pause(u16),
    Finish,
    Record,
}
