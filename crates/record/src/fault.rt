// What is wrong with a record's code and numbers under given axes; all ranges are tested before all speeds.
ghost use Rattle.std.specs.Prelude.{◌≡◌, true, pos};
ghost use Rattle.count.specs.Numbers.{within, signed};
ghost use Rattle.record.specs.Fault.{is_movement, is_code, count_right, named_by, axes_right, loop_right, ranges_right, speeds_right, replied, fault_of};

use count::{Axis, Fault};

fn is_movement(code: u8) -> bool
    ensures { result ≡ is_movement code }
{
    matches!(code, b'0' | b'm')
}

#[tactic(auto, using(crate::proofs::laws::Rows::rows))]
fn is_code(code: u8) -> bool
    ensures { result ≡ is_code code }
{
    matches!(
        code,
        b'0' | b'm' | b'n' | b'z' | b'3' | b'5' | b'1' | b'2' | b'e' | b'f' | b'y'
    )
}

// 7: whether a record of this code, which is one, has this many numbers.
#[tactic(auto, using(crate::proofs::laws::Rows::rows))]
fn count_right(axes: u8, code: u8, n: usize) -> bool
    requires { is_code code ≡ true }
    ensures { result ≡ count_right axes code n }
{
    match code {
        b'0' | b'm' => count::right_count(axes, n),
        b'3' | b'2' => n == 2,
        b'y' => n == 7,
        _ => n == 1,
    }
}

// Whether a number is from `least` to `most`.
#[tactic(auto, using(crate::proofs::laws::Rows::rows))]
fn from_to(least: u8, most: u8, w: u32) -> bool
    ensures { result ≡ within (pos least) (pos most) (signed w) }
{
    (u32::from(least) <= w) & (w <= u32::from(most))
}

// Whether these are axes of x, y and z that are set, or A alone where it is.
#[tactic(auto, unfolding(crate::specs::Fault::named_by))]
fn axes_named(axes: u8, w: u32) -> bool
    ensures { result ≡ named_by axes (signed w) }
{
    let few = count::has(u32::from(axes), Axis::X) & from_to(1, 7, w) & from_to(1, axes, w);
    few | (count::has(u32::from(axes), Axis::A) & from_to(8, 8, w))
}

// 3: whether the axes of `n` are some of the axes set. Axes, code and words stay parameters: who calls has them apart.
#[tactic(auto, using(crate::proofs::laws::Rows::rows))]
fn axes_right(axes: u8, code: u8, words: [u32; 8]) -> bool
    ensures { result ≡ axes_right axes code words }
{
    (code != b'n') || axes_named(axes, words[0])
}

// Whether a number and an offset are a loop's or a jump's.
#[tactic(auto, unfolding(crate::specs::Fault::loop_right))]
fn loop_right(number: u32, offset: u32) -> bool
    ensures { result ≡ loop_right (signed number) (signed offset) }
{
    (count::is_loop(number) & count::is_back(offset))
        | (count::is_zero(number) & count::is_offset(offset))
}

// 1: whether every other number is in its range.
#[tactic(auto, unfolding(crate::specs::Fault::ranges_right))]
fn ranges_right(axes: u8, code: u8, words: [u32; 8]) -> bool
    ensures { result ≡ ranges_right axes code words }
{
    match code {
        b'0' => count::right_distances(axes, false, words),
        b'm' => count::right_distances(axes, true, words),
        b'z' => count::is_switch(words[0]),
        b'3' => loop_right(words[0], words[1]),
        b'5' => count::is_delay(words[0]),
        b'1' => count::is_character(words[0]),
        b'2' => count::is_character(words[0]) & count::is_offset(words[1]),
        b'e' => count::is_plane(words[0]),
        b'f' => count::is_direction(words[0]),
        b'y' => count::right_arc(words),
        _ => true,
    }
}

// D: whether every speed of a movement or a circle is one.
#[tactic(auto, using(crate::proofs::laws::Rows::rows))]
fn speeds_right(axes: u8, code: u8, words: [u32; 8]) -> bool
    ensures { result ≡ speeds_right axes code words }
{
    match code {
        b'0' | b'm' => count::right_speeds(axes, words),
        b'y' => count::is_speed(words[1]),
        _ => true,
    }
}

// What is wrong with a code and its numbers.
#[tactic(auto, unfolding(crate::specs::Fault::fault_of))]
pub fn record_fault(axes: u8, code: u8, count: usize, words: [u32; 8]) -> Result<(), Fault>
    ensures { replied result ≡ fault_of axes code count words }
{
    if !is_code(code) {
        return Err(Fault::Shape);
    }
    if !count_right(axes, code, count) {
        return Err(Fault::Count);
    }
    if !axes_right(axes, code, words) {
        return Err(Fault::Axes);
    }
    if !ranges_right(axes, code, words) {
        return Err(Fault::Range);
    }
    if !speeds_right(axes, code, words) {
        return Err(Fault::Speed);
    }
    Ok(())
}
