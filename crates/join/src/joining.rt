// A second program put behind a first, and the table filled: everything is tested before anything is written.
ghost use Rattle.std.specs.Prelude.{◌≡◌, ◌+◌, ◌≤◌, length};
ghost use Rattle.std.proofs.Math.Seq.{paste};
ghost use Rattle.record.specs.Memory.{memory};
ghost use Rattle.record.specs.Table.{refused};
ghost use Rattle.join.specs.Join.{axes_beside, counted, axes_right, room_right, refusal_of, joining, outcome, join_of};

use count::{Fault, Refusal};
use program::accepts;
use record::Held;

// The axes that a program counts as of beside another: an empty one has the other's, where that one is not empty.
#[tactic(auto, unfolding(crate::specs::Join::axes_beside))]
fn axes_beside(held: Held, other: Held) -> u8
    ensures { result ≡ axes_beside held other }
{
    if (held.records == 0) & (other.records != 0) {
        return other.axes;
    }
    held.axes
}

// A program under the axes that it counts as of.
#[tactic(auto, unfolding(crate::specs::Join::counted))]
fn counted(held: Held, other: Held) -> Held
    ensures { result ≡ counted held other }
{
    Held {
        axes: axes_beside(held, other),
        ..held
    }
}

// 3: whether both are of the same axes, and of allowed ones.
#[tactic(auto, unfolding(crate::specs::Join::axes_right))]
fn axes_right(first: Held, second: Held) -> bool
    ensures { result ≡ axes_right first second }
{
    let axes = axes_beside(first, second);
    (axes == axes_beside(second, first)) & count::axes_set(axes)
}

// 6: whether there is room for both.
#[tactic(auto, unfolding(crate::specs::Join::room_right))]
fn room_right(first: Held, second: Held) -> bool
    ensures { result ≡ room_right first second }
{
    let records = u32::from(first.records) + u32::from(second.records);
    let used = u32::from(first.used) + u32::from(second.used);
    (records <= 1000) & (used <= 16384)
}

// The first refusal that applies. Each store is read once.
fn refusal_of(
    first: Held,
    store: &[u8],
    table: &[u16],
    second: Held,
    other: &[u8],
) -> Result<(), Refusal>
    ensures { refused result ≡ refusal_of first (memory store.now table.now) second other.now }
{
    if (store.len() != 16384) | (other.len() != 16384) {
        return Err(Refusal::Store);
    }
    if table.len() != 1000 {
        return Err(Refusal::Table);
    }
    if !axes_right(first, second) {
        return Err(Refusal::Program(Fault::Axes));
    }
    let Some(a) = accepts(store, counted(first, second)) else {
        return Err(Refusal::Program(Fault::Refused));
    };
    let Some(b) = accepts(other, counted(second, first)) else {
        return Err(Refusal::Program(Fault::Refused));
    };
    if a.out & b.first {
        return Err(Refusal::Program(Fault::Refused));
    }
    if !room_right(first, second) {
        return Err(Refusal::Program(Fault::Full));
    }
    Ok(())
}

// The first `n` bytes of another store at byte `at`: by a loop, not `copy_from_slice`, so that the archives for C ask no `memmove`.
fn put_bytes(store: &mut [u8], at: usize, other: &[u8], n: usize)
    requires { (at + n ≤ length store.old) × (n ≤ length other.now) }
    ensures { store.new ≡ paste store.old at other.now n }
{
    for i in 0..n {
        store[at + i] = other[i];
    }
}

// The second program put behind the first, whose store and table are the destination; or the refusal, and the first stays.
pub fn join(
    first: Held,
    store: &mut [u8],
    table: &mut [u16],
    second: Held,
    other: &[u8],
) -> Result<Held, Refusal>
    ensures { joining (outcome first result) (memory store.new table.new) ≡ join_of first (memory store.old table.old) second other.now }
{
    refusal_of(first, store, table, second, other)?;
    let at = usize::from(first.used);
    let n = usize::from(second.used);
    put_bytes(store, at, other, n);
    let held = Held {
        used: (at + n) as u16,
        records: first.records + second.records,
        axes: axes_beside(first, second),
    };
    record::fill(store, table, held)?;
    Ok(held)
}
