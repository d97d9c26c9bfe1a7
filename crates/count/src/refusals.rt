// What refuses a line, a record or a call, by the paper's character or number.
ghost use Rattle.std.specs.Prelude.{◌≡◌};
ghost use Rattle.count.specs.Refusals.{letter_of, number_of};

use super::{Fault, Refusal};
use std::fmt;

impl Fault {
    // The reply's character. A method, not a `From`, so that it is said which byte.
    pub fn letter(self) -> u8
        ensures { result ≡ letter_of self }
    {
        match self {
            Fault::Shape => b'5',
            Fault::Stands => b'W',
            Fault::NoAxes => b'4',
            Fault::Count => b'7',
            Fault::Axes => b'3',
            Fault::Range => b'1',
            Fault::Speed => b'D',
            Fault::Outside => b'9',
            Fault::Full => b'6',
            Fault::Empty => b'8',
            Fault::Refused => b'G',
        }
    }
}

impl Refusal {
    // The refusal's number, or the character of what is wrong with a program.
    pub fn number(self) -> u16
        ensures { result ≡ number_of self }
    {
        match self {
            Refusal::Reply => 101,
            Refusal::Store => 102,
            Refusal::State => 103,
            Refusal::Table => 104,
            Refusal::Text => 106,
            Refusal::Program(fault) => u16::from(fault.letter()),
        }
    }
}

// A number, or the character of what is wrong with a program.
impl fmt::Display for Refusal {
    fn fmt<W: fmt::Write>(&self, f: &mut fmt::Formatter<W>) -> fmt::Result {
        match *self {
            Refusal::Program(fault) => write!(f, "{}", char::from(fault.letter())),
            refusal => write!(f, "{}", refusal.number()),
        }
    }
}
