// What a host does with stores and sheets: the table filled at power-on, two programs joined, a chain of distances. Only numbers and
// lent buffers cross the border.
ghost use Rattle.std.specs.Prelude.{◌≡◌};
ghost use Rattle.record.specs.Memory.{memory};
ghost use Rattle.record.specs.Table.{filling, fill_of, refused};
ghost use Rattle.join.specs.Join.{joining, join_of};
ghost use Rattle.sheet.specs.Chain.{chained, chain_of};
ghost use Rattle.port.specs.Store.{held, joined};

use count::Refusal;
use record::Held;
use sheet::Axis;

// What refuses a call, by its number, as C reads it; 0 where nothing does.
pub(crate) fn refusal_of<T: Copy>(answer: Result<T, Refusal>) -> u16
    ensures { result ≡ refused answer }
{
    match answer {
        Ok(_) => 0,
        Err(refusal) => refusal.number(),
    }
}

// The table of a store that was kept, or the refusal: 102, 104, or G for a store that cannot be read.
pub fn board_fill(used: u16, records: u16, axes: u8, store: &[u8], table: &mut [u16]) -> u16
    ensures { filling result table.new ≡ fill_of (held used records axes) (memory store.now table.old) }
{
    let part = Held {
        used,
        records,
        axes,
    };
    refusal_of(record::fill(store, table, part))
}

// A second program put behind a first, whose part in use, store and table are the destination; or the refusal, and they stay.
pub fn board_join(
    used: &mut u16,
    records: &mut u16,
    axes: &mut u8,
    store: &mut [u8],
    table: &mut [u16],
    more_used: u16,
    more_records: u16,
    more_axes: u8,
    more: &[u8],
) -> u16
    ensures { joining (joined result used.new records.new axes.new) (memory store.new table.new) ≡ join_of (held used.old records.old axes.old) (memory store.old table.old) (held more_used more_records more_axes) more.now }
{
    let first = Held {
        used: *used,
        records: *records,
        axes: *axes,
    };
    let second = Held {
        used: more_used,
        records: more_records,
        axes: more_axes,
    };
    match join::join(first, store, table, second, more) {
        Ok(both) => {
            *used = both.used;
            *records = both.records;
            *axes = both.axes;
            0
        }
        Err(refusal) => refusal.number(),
    }
}

// Distances in thousandths of a mm as relative distances in steps, for an axis of this lead, these steps per turn and this gear.
pub fn board_chain(
    lead: f64,
    steps: f64,
    gear: f64,
    thousandths: &[i64],
    distances: &mut [i32],
) -> u16
    ensures { chained result distances.new ≡ chain_of (record { lead = lead; steps = steps; gear = gear }) thousandths.now distances.old }
{
    let axis = Axis { lead, steps, gear };
    match sheet::chain(axis, thousandths, distances) {
        Ok(()) => 0,
        Err(refusal) => refusal.number(),
    }
}
