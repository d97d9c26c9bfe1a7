// The table of where each record starts: a place found by it, the record there, and the table filled from a readable store.
ghost use Rattle.std.specs.Prelude.{◌≡◌, true, ◌≤◌, length};
ghost use Rattle.std.proofs.Math.Seq.{paste};
ghost use Rattle.record.specs.Memory.{memory};
ghost use Rattle.record.specs.Places.{records_from, is_list};
ghost use Rattle.record.specs.Table.{entry_at, spot_of, fetch_of, starts_of, refused, filling, can_fill, fill_of};

use super::bytes::{record_at, record_in};
use super::places::readable;
use super::{Found, Held};
use count::{Fault, Refusal};

// An entry of the table.
fn entry_at(table: &[u16], place: u16) -> Option<u16>
    ensures { result ≡ entry_at table.now place }
{
    let i = usize::from(place);
    if i < table.len() {
        return Some(table[i]);
    }
    None
}

// The byte where a place starts.
#[tactic(auto, unfolding(crate::specs::Table::spot_of))]
pub fn find(store: &[u8], table: &[u16], held: Held, place: u16) -> Option<u16>
    ensures { result ≡ spot_of held (memory store.now table.now) place }
{
    if place < held.records {
        return entry_at(table, place);
    }
    if place == held.records {
        return Some(held.end(store) as u16);
    }
    None
}

// The record at a place.
#[tactic(auto, unfolding(crate::specs::Table::fetch_of))]
pub fn fetch(store: &[u8], table: &[u16], held: Held, place: u16) -> Found
    ensures { result ≡ fetch_of held (memory store.now table.now) place }
{
    if place == held.records {
        return Found::End;
    }
    match find(store, table, held, place) {
        Some(at) => record_at(store, held, usize::from(at)),
        None => Found::Wrong,
    }
}

// Where each of the `n` records that a part holds starts; the entries behind them stay.
fn put_starts(table: &mut [u16], s: &[u8], axes: u8, n: usize)
    requires { (is_list (records_from axes n s.now) ≡ true) × (n ≤ length table.old) × (length s.now ≤ 65535) }
    ensures { table.new ≡ paste table.old 0 (starts_of (records_from axes n s.now)) n }
{
    let mut at: usize = 0;
    for i in 0..n {
        table[i] = at as u16;
        let Found::Got(item) = record_in(&s[at..], axes) else {
            unreachable!()
        };
        at += usize::from(item.len());
    }
}

// Whether the part in use is no more than a store holds, and readable.
#[tactic(auto, unfolding(crate::specs::Table::can_fill))]
fn can_fill(store: &[u8], held: Held) -> bool
    ensures { result ≡ can_fill held store.now }
{
    (held.used <= 16384) && (held.records <= 1000) && readable(store, held)
}

// The table filled from a readable store, or the refusal: nothing is written then.
pub fn fill(store: &[u8], table: &mut [u16], held: Held) -> Result<(), Refusal>
    ensures { filling (refused result) table.new ≡ fill_of held (memory store.now table.old) }
{
    if store.len() != 16384 {
        return Err(Refusal::Store);
    }
    if table.len() != 1000 {
        return Err(Refusal::Table);
    }
    if !can_fill(store, held) {
        return Err(Refusal::Program(Fault::Refused));
    }
    let end = held.end(store);
    put_starts(table, &store[..end], held.axes, usize::from(held.records));
    Ok(())
}
