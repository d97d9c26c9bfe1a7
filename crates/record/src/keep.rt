// Storing a record: its bytes written at the end of the part in use, its start into the table.
ghost use Rattle.std.specs.Prelude.{◌≡◌, ◌++◌, ◌+◌, ◌*◌, ◌≤◌, length, drop};
ghost use Rattle.record.specs.Memory.{memory};
ghost use Rattle.record.specs.Bytes.{bytes4, num_bytes, numbers_of, encode};
ghost use Rattle.record.specs.Keep.{storing, kept, has_room, store_of};

use super::{Held, Record};

// A number at the front of a part, lowest byte first.
#[tactic(auto, unfolding(crate::specs::Bytes::bytes4))]
fn put_number(s: &mut [u8], w: u32)
    requires { 4 ≤ length s.old }
    ensures { s.new ≡ bytes4 w ++ drop 4 s.old }
{
    s[..4].copy_from_slice(&w.to_le_bytes());
}

// Numbers at the front of a part.
fn put_numbers(s: &mut [u8], numbers: &[u32])
    requires { 4 * length numbers.now ≤ length s.old }
    ensures { s.new ≡ num_bytes numbers.now ++ drop (4 * length numbers.now) s.old }
{
    for (i, w) in numbers.iter().enumerate() {
        put_number(&mut s[4 * i..], *w);
    }
}

// A whole record at the front of a part.
fn put_record(s: &mut [u8], item: Record)
    requires { length (encode item) ≤ length s.old }
    ensures { s.new ≡ encode item ++ drop (length (encode item)) s.old }
{
    let numbers = item.numbers();
    s[..4].copy_from_slice(&[0xD7, 0x2B, item.code, numbers.len() as u8]);
    put_numbers(&mut s[4..], numbers);
}

#[tactic(auto, unfolding(crate::specs::Keep::has_room))]
fn has_room(held: Held, n: usize, size: usize, entries: usize) -> bool
    requires { n ≤ 36 }
    ensures { result ≡ has_room held n size entries }
{
    let end = usize::from(held.used) + n;
    let records = usize::from(held.records) + 1;
    (records <= 1000) & (end <= 16384) & (end <= size) & (records <= entries)
}

// A record stored at the end of the part in use, where there is room for it; the part in use afterwards. C lends store and
// table one by one.
pub fn store_record(store: &mut [u8], table: &mut [u16], held: Held, item: Record) -> Option<Held>
    ensures { storing (kept held result) (memory store.new table.new) ≡ store_of held item (memory store.old table.old) }
{
    let len = 4 + 4 * item.numbers().len();
    if !has_room(held, len, store.len(), table.len()) {
        return None;
    }
    let at = usize::from(held.used);
    put_record(&mut store[at..], item);
    table[usize::from(held.records)] = held.used;
    Some(Held {
        used: (at + len) as u16,
        records: held.records + 1,
        ..held
    })
}
