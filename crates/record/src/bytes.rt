// A record read from bytes: one number, all numbers, the record at the front of a part, and the record at a byte of the part in use.
ghost use Rattle.std.specs.Prelude.{◌≡◌, ◌+◌, ◌*◌, ◌≤◌, ◌<◌, length};
ghost use Rattle.count.specs.Words.{pad};
ghost use Rattle.record.specs.Bytes.{word_at, words_of, front};
ghost use Rattle.record.specs.work.Work.{head_of};
ghost use Rattle.record.specs.Places.{record_at};

use super::fault::record_fault;
use super::{Found, Held, Record};

// The number at the front of a part.
#[tactic(auto, unfolding(crate::specs::Bytes::word_at))]
fn word(s: &[u8]) -> u32
    requires { 4 ≤ length s.now }
    ensures { result ≡ word_at s.now }
{
    u32::from_le_bytes([s[0], s[1], s[2], s[3]])
}

// The numbers at the front of a part: `count` is of numbers, and behind them the part goes on.
fn read_numbers(s: &[u8], count: usize) -> [u32; 8]
    requires { (count ≤ 8) × (4 * count ≤ length s.now) }
    ensures { result ≡ pad 8 (words_of count s.now) }
{
    let mut words = [0; 8];
    for i in 0..count {
        words[i] = word(&s[4 * i..]);
    }
    words
}

// The count of numbers of the record at the front of a part, if its mark is right and the whole of it is there.
#[tactic(auto, unfolding(crate::specs::work::Work::head_of))]
fn head(s: &[u8]) -> Option<usize>
    ensures { result ≡ head_of s.now }
{
    if s.len() < 4 {
        return None;
    }
    if (s[0] == 0xD7) & (s[1] == 0x2B) {
        let n = usize::from(s[3]);
        if (n <= 8) & (4 + 4 * n <= s.len()) {
            return Some(n);
        }
    }
    None
}

// The record at the front of a part.
pub(crate) fn record_in(s: &[u8], axes: u8) -> Found
    ensures { result ≡ front axes s.now }
{
    let Some(count) = head(s) else {
        return Found::Wrong;
    };
    let code = s[2];
    let words = read_numbers(&s[4..], count);
    match record_fault(axes, code, count, words) {
        Ok(()) => Found::Got(Record {
            code,
            count: count as u8,
            words,
        }),
        Err(_) => Found::Wrong,
    }
}

// The record at a byte of the part in use.
pub fn record_at(store: &[u8], held: Held, at: usize) -> Found
    ensures { result ≡ record_at held store.now at }
{
    let end = held.end(store);
    if end < at {
        return Found::Wrong;
    }
    record_in(&store[at..end], held.axes)
}
