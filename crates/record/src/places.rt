// The walk from the front: where the record some places behind it starts, and whether the whole part in use is readable.
ghost use Rattle.std.specs.Prelude.{◌≡◌, ◌≤◌, length};
ghost use Rattle.record.specs.Places.{spot_from, readable_of};

use super::bytes::record_in;
use super::{Found, Held};

// The byte where the record `k` places behind the front starts.
fn walk(s: &[u8], axes: u8, k: u16) -> Option<u16>
    requires { length s.now ≤ 65535 }
    ensures { result ≡ spot_from axes k s.now 0 }
{
    let mut at: usize = 0;
    for _ in 0..k {
        let Found::Got(item) = record_in(&s[at..], axes) else {
            return None;
        };
        at += usize::from(item.len());
    }
    Some(at as u16)
}

// Whether the part in use is exactly its count of records, each right.
pub fn readable(store: &[u8], held: Held) -> bool
    ensures { result ≡ readable_of held store.now }
{
    let end = held.end(store);
    match walk(&store[..end], held.axes, held.records) {
        Some(at) => usize::from(at) == end,
        None => false,
    }
}
