// A line outside storing: its letter, and the numbers behind it.
ghost use Rattle.std.specs.Prelude.{◌≡◌, true, IfSome};
ghost use Rattle.line.specs.Said.{letter_said, letter_found, direct_found};
ghost use Rattle.line.specs.Lines.{letter_of, direct_of};
ghost use Rattle.line.specs.work.Reading.{lettered};

use crate::numbers::Items;
use crate::{Direct, Letter, numbers};

// The letters, and no other; A, M and S may be small. A table of the paper, which switches no step.
#[tactic(auto, unfolding(crate::specs::Lines::letter_of))]
fn letter_of(b: u8) -> Option<Letter>
    ensures found { letter_found result ≡ letter_of b }
    ensures lettered { IfSome result (λ l. lettered (letter_said l) ≡ true) }
{
    match b {
        b'A' | b'a' => Some(Letter::Relative),
        b'M' | b'm' => Some(Letter::Absolute),
        b'n' => Some(Letter::Origin),
        b'N' => Some(Letter::Zero),
        b'z' => Some(Letter::Three),
        b'P' => Some(Letter::Position),
        b'b' => Some(Letter::Input),
        b'B' => Some(Letter::Output),
        b'i' => Some(Letter::Store),
        b'k' => Some(Letter::Empty),
        b'S' | b's' => Some(Letter::Start),
        b'e' => Some(Letter::Plane),
        b'f' => Some(Letter::Direction),
        b'y' => Some(Letter::Circle),
        _ => None,
    }
}

// A letter and the numbers read behind it.
fn with_letter(letter: Letter, read: Items) -> Direct
    ensures { result ≡ record { letter = letter; count = read.count; words = read.words } }
{
    let words = read.words;
    Direct {
        letter,
        count: read.count,
        words,
    }
}

// A line outside storing: `@0`, a letter, at most one space, then numbers; setting axes has no letter and no space. None for a wrong shape.
pub fn direct_line(line: &[u8]) -> Option<Direct>
    ensures { direct_found result ≡ direct_of line.now }
{
    if line.len() < 3 || line[0] != b'@' || line[1] != b'0' {
        return None;
    }
    match letter_of(line[2]) {
        Some(letter) => Some(with_letter(letter, numbers::read_behind(line, 3)?)),
        None => Some(with_letter(Letter::Axes, numbers::read_numbers(line, 2)?)),
    }
}
