// The line being gathered: an empty one, one byte more, and what it says at its carriage return.
ghost use Rattle.std.specs.Prelude.{◌≡◌, ◌≤◌};
ghost use Rattle.board.specs.State.{no_line, gathered, text_of};
ghost use Rattle.board.specs.work.Take.{lined_of};

use crate::{Line, Lined};

impl Line {
    pub(crate) fn empty() -> Line
        ensures { result ≡ no_line }
    {
        let bytes = [0u8; 80];
        Line {
            bytes,
            len: 0,
            over: false,
        }
    }

    // One byte more; the 81st and later ones are not kept.
    pub(crate) fn gather(self, byte: u8) -> Line
        ensures { result ≡ gathered byte self }
    {
        let len = self.len;
        let mut l = self;
        if len < 80 {
            let at = len as usize;
            l.bytes[at] = byte;
            l.len = len + 1;
            return l;
        }
        l.over = true;
        l
    }

    // The bytes gathered. The length is asked, not kept by the type: a board from outside may have another, which 103 refuses.
    pub(crate) fn text(&self) -> &[u8]
        requires { self.now.len ≤ 80 }
        ensures { result.now ≡ text_of self.now }
    {
        &self.bytes[..usize::from(self.len)]
    }

    // The bytes up to a carriage return or a control code, one after the other.
    pub(crate) fn gather_all(self, input: &[u8]) -> Lined
        ensures { result ≡ lined_of input.now self }
    {
        let mut bytes = self.bytes;
        let mut len = self.len;
        let mut over = self.over;
        for (i, &b) in input.iter().enumerate() {
            if (b == b'\r') | (253 <= b) {
                let line = Line { bytes, len, over };
                return Lined { line, count: i };
            }
            if len < 80 {
                bytes[usize::from(len)] = b;
                len += 1;
            } else {
                over = true;
            }
        }
        let line = Line { bytes, len, over };
        let count = input.len();
        Lined { line, count }
    }
}
