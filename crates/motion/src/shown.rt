// Signs as numbers, and signs and counters as they are printed.
ghost use Rattle.std.specs.Prelude.{◌≡◌};
ghost use Rattle.motion.specs.Phase.{sign_value, sign_byte};

use super::{Counters, Sign, Signs};
use std::fmt;

// Methods, not a `From`, so that it is said which number.
impl Sign {
    // -1, 0 or 1.
    pub fn value(self) -> i8
        ensures { result ≡ sign_value self }
    {
        match self {
            Sign::Minus => -1,
            Sign::Rest => 0,
            Sign::Plus => 1,
        }
    }

    // `-`, `.` or `+`.
    pub fn character(self) -> u8
        ensures { result ≡ sign_byte self }
    {
        match self {
            Sign::Minus => b'-',
            Sign::Rest => b'.',
            Sign::Plus => b'+',
        }
    }
}

impl fmt::Display for Sign {
    fn fmt<W: fmt::Write>(&self, f: &mut fmt::Formatter<W>) -> fmt::Result {
        f.write_str(match self {
            Sign::Minus => "-",
            Sign::Rest => ".",
            Sign::Plus => "+",
        })
    }
}

// Of all axes, without a space.
impl fmt::Display for Signs {
    fn fmt<W: fmt::Write>(&self, f: &mut fmt::Formatter<W>) -> fmt::Result {
        write!(f, "{}{}{}{}", self.x, self.y, self.z, self.a)
    }
}

// The numbers of the counts.
impl fmt::Display for Counters {
    fn fmt<W: fmt::Write>(&self, f: &mut fmt::Formatter<W>) -> fmt::Result {
        let x = i64::from(self.x) - 8388608;
        let y = i64::from(self.y) - 8388608;
        let z = i64::from(self.z) - 8388608;
        let a = i64::from(self.a) - 8388608;
        write!(f, "{x} {y} {z} {a}")
    }
}
