// Numbers of 24 bits as counts, numbers of lines and records as words, their ranges and their text.
#![tactic(auto)]

ghost use Rattle.std.specs.Prelude.{◌≡◌, ◌<◌, ltb, pos};
ghost use Rattle.count.specs.Pick.{pick};
ghost use Rattle.count.specs.Numbers.{full, value, signed, word, with_sign, placed, added, far};

mod arcs;
mod axes;
mod movement;
mod ranges;
mod refusals;
mod text;

pub use arcs::right_arc;
pub use axes::{axes_set, has};
pub use movement::{right_count, right_distances, right_speeds};
pub use ranges::{
    is_24, is_arc, is_back, is_byte, is_character, is_delay, is_direction, is_loop, is_offset,
    is_plane, is_port, is_speed, is_start, is_switch, is_way, is_zero,
};
pub use text::{put_byte, put_count, put_place, put_report, put_word};

const HALF: u32 = 8_388_608;

const FULL: u32 = 16_777_216;

// The axes: A is a turntable's.
#[derive(Clone, Copy)]
pub enum Axis {
    X,
    Y,
    Z,
    A,
}

// What refuses a line or a record: its shape (5); something stands stopped (W); no axes are set (4); how many numbers it has (7); axes that are
// not set (3); a number out of its range (1); a speed that is none (D); a place outside 24 bits (9); no room (6); no program (8); a program that is
// not accepted (G).
#[derive(Clone, Copy, PartialEq, Eq)]
pub enum Fault {
    Shape,
    Stands,
    NoAxes,
    Count,
    Axes,
    Range,
    Speed,
    Outside,
    Full,
    Empty,
    Refused,
}

// What refuses a call: the length of the reply's buffer (101), of the store (102), the state (103), the length of the table (104) or of the
// text's buffer (106), or what is wrong with a program.
#[derive(Clone, Copy, PartialEq, Eq)]
pub enum Refusal {
    Reply,
    Store,
    State,
    Table,
    Text,
    Program(Fault),
}

// One of two by a test. The library has no such function, and contracts say `pick` of it.
pub fn chosen<T: Copy>(b: bool, x: T, y: T) -> T
    ensures { result ≡ pick b x y }
{
    if b { x } else { y }
}

// Whether a count is of 24 bits.
pub fn in_range(c: u32) -> bool
    ensures { result ≡ ltb c full }
{
    c < FULL
}

// A count and the distance of a word.
pub fn add(c: u32, w: u32) -> Option<u32>
    ensures { result ≡ added c w }
{
    if w < 2147483648 {
        let s = (c as u64) + (w as u64);
        if s < 16777216 {
            return Some(s as u32);
        }
        return None;
    }
    let m = 4294967295 - w;
    if c <= m {
        return None;
    }
    let s = c - m - 1;
    if s < FULL {
        return Some(s);
    }
    None
}

// How far two counts are apart.
pub fn distance(from: u32, to: u32) -> u32
    ensures { result ≡ far from to }
{
    from.abs_diff(to)
}

// The word of a number's sign and size.
pub fn word_of(minus: bool, size: u32) -> u32
    ensures { result ≡ word (with_sign minus size) }
{
    if minus { size.wrapping_neg() } else { size }
}

// The count of a word's number.
pub fn count_of(w: u32) -> Option<u32>
    ensures { result ≡ placed (signed w) }
{
    if w < HALF {
        return Some(w + HALF);
    }
    if 4286578688 <= w {
        return Some(w - 4286578688);
    }
    None
}

// The word of a count's number.
pub fn count_word(c: u32) -> u32
    ensures { result ≡ word (value c) }
{
    c.wrapping_sub(HALF)
}

// The number of a count, and 0 where the count is not of 24 bits.
pub fn number(c: u32) -> i32
    ensures { result ≡ pick (ltb c full) (value c) (pos 0) }
{
    if c < FULL { (c as i32) - 8_388_608 } else { 0 }
}
