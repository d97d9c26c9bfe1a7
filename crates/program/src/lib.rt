// Programs: the check at the end line, and where a record sends a run.
#![tactic(auto)]

ghost use Rattle.std.specs.Prelude.{◌≡◌};
ghost use Rattle.program.specs.Verdict.{letter_of};

mod accepting;
mod arrays;
mod ending;
mod pass;
mod ranges;
mod running;

pub use accepting::accepts;
pub use ending::check;
pub use running::{leap, onward};

// What a place may not be; of a place at fault in several ways the first is told.
#[derive(Clone, Copy, PartialEq, Eq)]
pub enum Rule {
    // A jump or wait that leads outside.
    Outside,
    // A loop whose range starts before place 0.
    Early,
    // A loop whose range overlaps that of an earlier one with neither holding the other.
    Overlaps,
    // Held by more than seven ranges.
    Crowded,
    // A jump or wait that doesn't lie in the same ranges as its target.
    Strays,
}

impl Rule {
    // The letter that names it. A method, not a `From`, so that it is said which byte.
    pub fn letter(self) -> u8
        ensures { result ≡ letter_of self }
    {
        match self {
            Rule::Outside => b'a',
            Rule::Early => b'b',
            Rule::Overlaps => b'c',
            Rule::Crowded => b'd',
            Rule::Strays => b'e',
        }
    }
}

// Why a check doesn't pass: the store is not readable, or the first fault, with its place. The errors of a `Result`, so no `Option`.
#[derive(Clone, Copy, PartialEq, Eq)]
pub enum Flaw {
    Unreadable,
    Fault(Rule, u16),
}

// Of an accepted program: whether a jump or wait leads to its end place, and whether a range starts at place 0.
#[derive(Clone, Copy, PartialEq, Eq)]
pub struct Edges {
    pub out: bool,
    pub first: bool,
}

// An open loop: its place, and the goes back still to make.
#[repr(C)]
#[derive(Clone, Copy)]
pub struct Loop {
    pub place: u16,
    pub left: u16,
}

// The open loops, the one opened last at depth - 1; the entries past it are 0. An array and a depth: fixed memory, and C's struct.
#[repr(C)]
#[derive(Clone, Copy)]
pub struct Loops {
    pub at: [Loop; 7],
    pub depth: u8,
}

// Where a record sends a run: to a place, into a wait with a next place and a target, or nowhere (G). Three outcomes, so no `Option`.
#[derive(Clone, Copy, PartialEq, Eq)]
pub enum Going {
    To(u16),
    Waits { place: u16, target: u16 },
    Wrong,
}

// Where it sends a run, and the open loops: they stay beside a G too, so no `Result`.
#[derive(Clone, Copy)]
pub struct Way {
    pub going: Going,
    pub loops: Loops,
}

// The same without the open loops: how many are open afterwards, and the one entry of theirs that can have changed. Likewise beside a G.
#[derive(Clone, Copy)]
pub struct Lead {
    pub going: Going,
    pub depth: u8,
    pub top: u8,
    pub last: Loop,
}
