// The check at the end line, from the bytes of a store: each record is read once, into the arrays of the call.
ghost use Rattle.std.specs.Prelude.{◌≡◌, ◌≤◌, replicate};
ghost use Rattle.count.specs.Pick.{pick};
ghost use Rattle.record.specs.Places.{records_of};
ghost use Rattle.program.specs.work.Aims.{aim_of};
ghost use Rattle.program.specs.Program.{verdict_of};
ghost use Rattle.program.specs.Verdict.{verdict};
ghost use Rattle.program.specs.work.Decode.{kind_of, clip, kept, noted, unread, arrays_on};

use crate::Flaw;
use crate::arrays::Places;
use crate::pass::check_places;
use record::{Found, Held, Record, record_at};

// A word's offset, counted from -32,768.
#[tactic(auto, unfolding(crate::specs::work::Decode::clip))]
fn clip(w: u32) -> u16
    ensures { result ≡ clip w }
{
    if w < 32768 {
        return (w + 32768) as u16;
    }
    if w < 4294934528 {
        return 0;
    }
    (32767 - (4294967295 - w)) as u16
}

// 1 a loop, 2 a jump or wait, 0 neither.
#[tactic(auto, unfolding(crate::specs::work::Aims::aim_of))]
fn kind_of(item: Record) -> u8
    ensures { result ≡ kind_of (aim_of item) }
{
    match item.code {
        b'3' if item.words[0] != 0 => 1,
        b'3' | b'2' => 2,
        _ => 0,
    }
}

#[tactic(auto, unfolding(crate::specs::work::Decode::kept))]
fn offset_of(item: Record) -> u16
    ensures { result ≡ kept item }
{
    match item.code {
        b'3' | b'2' => clip(item.words[1]),
        _ => 0,
    }
}

// The records of a part in use, each read once: what each place is, and its offset. Whether it is readable, as at most 1,000 records. Two
// arrays side by side take 3,000 bytes of stack; one of pairs would take 4,000.
pub(crate) fn decode(store: &[u8], held: Held, kinds: &mut [u8], offsets: &mut [u16]) -> bool
    requires { (held.records ≤ 1000) × (kinds.old ≡ replicate 1000 0) × (offsets.old ≡ replicate 1000 0) }
    ensures { pick result (noted kinds.new offsets.new) unread ≡ arrays_on (records_of held store.now) }
{
    let mut at = 0;
    for i in 0..usize::from(held.records) {
        let Found::Got(item) = record_at(store, held, at) else {
            return false;
        };
        kinds[i] = kind_of(item);
        offsets[i] = offset_of(item);
        at += usize::from(item.len());
    }
    held.end(store) <= at
}

// The check of a store's part in use.
pub fn check(store: &[u8], held: Held) -> Result<(), Flaw>
    ensures { verdict result ≡ verdict_of held store.now }
{
    let n = held.records;
    if 1000 < n {
        return Err(Flaw::Unreadable);
    }
    let mut kinds = [0u8; 1000];
    let mut offsets = [0u16; 1000];
    if decode(store, held, &mut kinds, &mut offsets) {
        return check_places(&Places {
            kinds: &kinds,
            offsets: &offsets,
            n,
        });
    }
    Err(Flaw::Unreadable)
}
