// The exports of `port` for C, as firmware/board.h declares them: each has the name and the clauses of a function there, and calls it.
#![tactic(auto)]

ghost use Rattle.std.specs.Prelude.{◌≡◌};
ghost use Rattle.record.specs.Memory.{memory};
ghost use Rattle.record.specs.Table.{filling, fill_of};
ghost use Rattle.join.specs.Join.{joining, join_of};
ghost use Rattle.sheet.specs.Chain.{chained, chain_of};
ghost use Rattle.board.specs.Calls.{lent};
ghost use Rattle.port.specs.Code.{ports_of};
ghost use Rattle.port.specs.Calls.{fresh_state, clocking_state, heard, hearing_state, listed, listing_state, showing};
ghost use Rattle.port.specs.Store.{held, joined};

use port::{Clocked, Heard, Shown, State, Written};

#[unsafe(no_mangle)]
pub extern "C" fn board_fresh() -> State
    ensures { result ≡ fresh_state }
{
    port::board_fresh()
}

#[unsafe(no_mangle)]
pub extern "C" fn board_clock(state: State, store: &[u8], table: &[u16]) -> Clocked
    ensures { result ≡ clocking_state state (memory store.now table.now) }
{
    port::board_clock(state, store, table)
}

#[unsafe(no_mangle)]
pub extern "C" fn board_receive(
    state: State,
    byte: u8,
    ports: u32,
    reply: &mut [u8],
    store: &mut [u8],
    table: &mut [u16],
) -> Heard
    ensures { heard result (lent reply.new (memory store.new table.new)) ≡ hearing_state byte (ports_of ports) state (lent reply.old (memory store.old table.old)) }
{
    port::board_receive(state, byte, ports, reply, store, table)
}

#[unsafe(no_mangle)]
pub extern "C" fn board_list(state: State, store: &[u8], text: &mut [u8]) -> Written
    ensures { listed result text.new ≡ listing_state state store.now text.old }
{
    port::board_list(state, store, text)
}

#[unsafe(no_mangle)]
pub extern "C" fn board_show(state: State) -> Shown
    ensures { result ≡ showing state }
{
    port::board_show(state)
}

#[unsafe(no_mangle)]
pub extern "C" fn board_fill(
    used: u16,
    records: u16,
    axes: u8,
    store: &[u8],
    table: &mut [u16],
) -> u16
    ensures { filling result table.new ≡ fill_of (held used records axes) (memory store.now table.old) }
{
    port::board_fill(used, records, axes, store, table)
}

#[unsafe(no_mangle)]
pub extern "C" fn board_join(
    used: &mut u16,
    records: &mut u16,
    axes: &mut u8,
    store: &mut [u8],
    table: &mut [u16],
    more_used: u16,
    more_records: u16,
    more_axes: u8,
    more: &[u8],
) -> u16
    ensures { joining (joined result used.new records.new axes.new) (memory store.new table.new) ≡ join_of (held used.old records.old axes.old) (memory store.old table.old) (held more_used more_records more_axes) more.now }
{
    port::board_join(
        used,
        records,
        axes,
        store,
        table,
        more_used,
        more_records,
        more_axes,
        more,
    )
}

#[unsafe(no_mangle)]
pub extern "C" fn board_chain(
    lead: f64,
    steps: f64,
    gear: f64,
    thousandths: &[i64],
    distances: &mut [i32],
) -> u16
    ensures { chained result distances.new ≡ chain_of (record { lead = lead; steps = steps; gear = gear }) thousandths.now distances.old }
{
    port::board_chain(lead, steps, gear, thousandths, distances)
}
