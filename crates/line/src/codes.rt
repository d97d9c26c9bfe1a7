// A line while storing: its code, and the numbers behind it.
ghost use Rattle.std.specs.Prelude.{◌≡◌};
ghost use Rattle.line.specs.Said.{code_found, stored_found};
ghost use Rattle.line.specs.Lines.{code_of, stored_of};

use crate::{Code, Stored, numbers};

// The codes, and no other: 0 m n z 3 5 1 2 e f y for a record, 9 for the end.
#[tactic(auto, unfolding(crate::specs::Lines::code_of))]
fn code_of(b: u8) -> Option<Code>
    ensures { code_found result ≡ code_of b }
{
    match b {
        b'0' | b'm' | b'n' | b'z' | b'3' | b'5' | b'1' | b'2' | b'e' | b'f' | b'y' => {
            Some(Code::Record(b))
        }
        b'9' => Some(Code::End),
        _ => None,
    }
}

// A line while storing: a code, at most one space, then numbers; `9` alone ends storing. None for a wrong shape.
pub fn stored_line(line: &[u8]) -> Option<Stored>
    ensures { stored_found result ≡ stored_of line.now }
{
    if line.len() == 0 {
        return None;
    }
    let code = code_of(line[0])?;
    let alone = line.len() == 1;
    if matches!(code, Code::End) && !alone {
        return None;
    }
    let read = numbers::read_behind(line, 1)?;
    let words = read.words;
    Some(Stored {
        code,
        count: read.count,
        words,
    })
}
