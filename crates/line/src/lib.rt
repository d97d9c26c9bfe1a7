// What a line says: its letter or code and its numbers, if its shape is right.
#![tactic(auto)]

mod codes;
mod letters;
mod numbers;

pub use codes::stored_line;
pub use letters::direct_line;

// A line outside storing, by its letter; setting axes has none.
#[derive(Clone, Copy)]
pub enum Letter {
    Axes,
    Relative,
    Absolute,
    Origin,
    Zero,
    Three,
    Position,
    Input,
    Output,
    Store,
    Empty,
    Start,
    Plane,
    Direction,
    Circle,
}

// A line outside storing: how many numbers it has, and the first eight of them as words; there may be more, so it is no length of the array.
#[derive(Clone, Copy)]
pub struct Direct {
    pub letter: Letter,
    pub count: usize,
    pub words: [u32; 8],
}

// A line while storing, by its code. Two kinds of line, so no `Option`: that is for a line of a wrong shape.
#[derive(Clone, Copy)]
pub enum Code {
    Record(u8),
    End,
}

// The same of a line while storing: how many numbers, and the first eight of them.
#[derive(Clone, Copy)]
pub struct Stored {
    pub code: Code,
    pub count: usize,
    pub words: [u32; 8],
}
