// What each letter asks of its line, and the first fault of a line outside storing.
#![tactic(auto, unfolding(crate::specs::work::Work::axes_fault, crate::specs::work::Work::input_fault, crate::specs::work::Work::output_fault))]

ghost use Rattle.std.specs.Prelude.{◌≡◌, Some, eqb, true};
ghost use Rattle.record.specs.Fault.{replied, numbers_reply};
ghost use Rattle.line.specs.Said.{letter_said, direct_found};
ghost use Rattle.board.specs.Direct.{heard_standing, needs_axes};
ghost use Rattle.board.specs.work.Work.{axes_fault, input_fault, output_fault, numbers_fault, line_fault};

use count::Fault;
use line::{Direct, Letter};

// P, b and S are heard while something stands stopped.
fn is_heard(letter: Letter) -> bool
    ensures { result ≡ heard_standing (letter_said letter) }
{
    matches!(letter, Letter::Position | Letter::Input | Letter::Start)
}

// A, M, n, N, z, i, S, e, f and y need axes.
fn needs_axes(letter: Letter) -> bool
    ensures { result ≡ needs_axes (letter_said letter) }
{
    !matches!(
        letter,
        Letter::Axes | Letter::Position | Letter::Input | Letter::Output | Letter::Empty
    )
}

// 7 unless a line has as many numbers as are wanted.
fn count_fault(count: usize, wanted: usize) -> Result<(), Fault>
    ensures { replied result ≡ numbers_reply (eqb count wanted) true true true 48 }
{
    if count == wanted {
        return Ok(());
    }
    Err(Fault::Count)
}

// Setting axes: 7, then 3.
fn axes_fault(axes: u8, count: usize, w: u32) -> Result<(), Fault>
    ensures { replied result ≡ axes_fault axes count w }
{
    if count != 1 {
        return Err(Fault::Count);
    }
    let few = (w == 1) | (w == 3) | (w == 7);
    if few | ((w == 8) & !((axes == 1) | (axes == 3))) {
        return Ok(());
    }
    Err(Fault::Axes)
}

// An input port: 7, then 1.
fn input_fault(count: usize, port: u32) -> Result<(), Fault>
    ensures { replied result ≡ input_fault count port }
{
    if count != 1 {
        return Err(Fault::Count);
    }
    if count::is_port(port) {
        return Ok(());
    }
    Err(Fault::Range)
}

// An output port and its value: 7, then 1.
fn output_fault(count: usize, port: u32, value: u32) -> Result<(), Fault>
    ensures { replied result ≡ output_fault count port value }
{
    if count != 2 {
        return Err(Fault::Count);
    }
    if count::is_zero(port) & count::is_byte(value) {
        return Ok(());
    }
    Err(Fault::Range)
}

// 7, 3, 1 and D in this order; A and M are a record's `0` and `m`, n and N its `n`, z, e and f its own. A circle's plan asks the rest.
fn numbers_fault(letter: Letter, axes: u8, count: usize, words: [u32; 8]) -> Result<(), Fault>
    ensures { replied result ≡ numbers_fault (letter_said letter) axes count words }
{
    match letter {
        Letter::Axes => axes_fault(axes, count, words[0]),
        Letter::Relative => record::record_fault(axes, b'0', count, words),
        Letter::Absolute => record::record_fault(axes, b'm', count, words),
        Letter::Origin | Letter::Zero => record::record_fault(axes, b'n', count, words),
        Letter::Three => record::record_fault(axes, b'z', count, words),
        Letter::Position | Letter::Store | Letter::Empty | Letter::Start => count_fault(count, 0),
        Letter::Input => input_fault(count, words[0]),
        Letter::Output => output_fault(count, words[0], words[1]),
        Letter::Plane => record::record_fault(axes, b'e', count, words),
        Letter::Direction => record::record_fault(axes, b'f', count, words),
        Letter::Circle => count_fault(count, 7),
    }
}

// The first fault of a line whose shape is right: W, 4, 7, 3, 1 and D in this order.
pub(crate) fn line_fault(axes: u8, standing: bool, d: Direct) -> Result<(), Fault>
    ensures { replied result ≡ line_fault axes standing (direct_found (Some d)) }
{
    if standing & !is_heard(d.letter) {
        return Err(Fault::Stands);
    }
    if needs_axes(d.letter) & (axes == 0) {
        return Err(Fault::NoAxes);
    }
    numbers_fault(d.letter, axes, d.count, d.words)
}
