// The listing: the text of each record of a readable store, and the end line.
ghost use Rattle.std.specs.Prelude.{◌≡◌, true, ◌++◌, ◌+◌, ◌≤◌, length, drop};
ghost use Rattle.record.specs.Places.{records_from, is_list};
ghost use Rattle.record.specs.Listing.{line_text, list_text, told, list_of};
ghost use Rattle.record.specs.work.Writing.{item_text, line_left, list_in};

use super::bytes::record_in;
use super::places::readable;
use super::{Found, Held, Record};
use count::{Fault, Refusal};

// The number that follows `i` others, with a comma before it unless it is the first; answers how many bytes.
fn put_item(text: &mut [u8], i: usize, w: u32) -> usize
    requires { 12 ≤ length text.old }
    ensures { (result ≡ length (item_text i w)) × (text.new ≡ item_text i w ++ drop (length (item_text i w)) text.old) }
{
    if i == 0 {
        return count::put_word(text, w);
    }
    let k = count::put_word(&mut text[1..], w);
    text[0] = b',';
    k + 1
}

// The numbers of a line and its carriage return; answers how many bytes.
fn put_tail(text: &mut [u8], numbers: &[u32]) -> usize
    requires { (length numbers.now ≤ 8) × (120 ≤ length text.old) }
    ensures { (result ≡ length (line_left 0 numbers.now)) × (text.new ≡ line_left 0 numbers.now ++ drop (length (line_left 0 numbers.now)) text.old) }
{
    let mut at = 0;
    for (i, w) in numbers.iter().enumerate() {
        at += put_item(&mut text[at..], i, *w);
    }
    text[at] = b'\r';
    at + 1
}

// A record's line; answers how many bytes.
fn put_line(text: &mut [u8], item: Record) -> usize
    requires { 128 ≤ length text.old }
    ensures { (result ≡ length (line_text item)) × (text.new ≡ line_text item ++ drop (length (line_text item)) text.old) }
{
    let k = put_tail(&mut text[1..], item.numbers());
    text[0] = item.code;
    k + 1
}

// The lines of the `k` records that a part holds, and the end line; answers how many bytes.
fn put_lines(text: &mut [u8], s: &[u8], axes: u8, k: u16) -> usize
    requires { (is_list (records_from axes k s.now) ≡ true) × (length (list_text (list_in (records_from axes k s.now))) + 128 ≤ length text.old) }
    ensures { (result ≡ length (list_text (list_in (records_from axes k s.now)))) × (text.new ≡ list_text (list_in (records_from axes k s.now)) ++ drop (length (list_text (list_in (records_from axes k s.now)))) text.old) }
{
    let mut at: usize = 0;
    let mut out: usize = 0;
    for _ in 0..k {
        let Found::Got(item) = record_in(&s[at..], axes) else {
            unreachable!()
        };
        out += put_line(&mut text[out..], item);
        at += usize::from(item.len());
    }
    text[out] = b'9';
    text[out + 1] = b'\r';
    out + 2
}

// The listing of the store, written at the front of a text buffer; nothing is written unless all is right. Answers how many bytes.
pub fn list(store: &[u8], held: Held, text: &mut [u8]) -> Result<u32, Refusal>
    ensures { told result text.new ≡ list_of held store.now text.old }
{
    if 16384 < held.used {
        return Err(Refusal::State);
    }
    if text.len() < 32768 {
        return Err(Refusal::Text);
    }
    if !readable(store, held) {
        return Err(Refusal::Program(Fault::Refused));
    }
    let end = held.end(store);
    let n = put_lines(text, &store[..end], held.axes, held.records);
    Ok(n as u32)
}
