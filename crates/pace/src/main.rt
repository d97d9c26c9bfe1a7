// `pace`: makes the calls that its input asks for and counts them, so that `bench/run` can measure the calls alone. It reads at most
// 65,536 bytes. Byte 0 asks for a listing, byte 1 for 1,000 conversions of the sheet, and byte 2 puts the board back to storing the program
// that it holds, so that its end line can follow once more; any other is received, and clock calls follow it until one answers nothing.
#![tactic(auto)]

use board::Board;
use engine::Answer;
use sheet::{Axis, Rate, Refusal};
use std::io;
use std::io::Read;

// The board, the calls made, and a sum over what they came to.
#[derive(Clone, Copy)]
struct Pace {
    pub board: Board,
    pub calls: u64,
    pub sum: u64,
}

// What an answer adds to the sum; nothing adds 0, as a refused call does, and no other.
fn weight(answer: Result<Answer, count::Refusal>) -> u64 {
    match answer {
        Ok(Answer::Pulse(_, speed)) => 3 + u64::from(speed),
        Ok(Answer::Pause) => 1,
        Ok(Answer::Send(b)) => 1 + u64::from(b),
        Ok(Answer::Done) => 2,
        Ok(Answer::Nothing) | Err(_) => 0,
    }
}

// Clock calls until one answers nothing, at most 100,000.
fn run(start: Pace, store: &[u8], table: &[u16]) -> Pace {
    let Pace {
        mut board,
        mut calls,
        mut sum,
    } = start;
    for _ in 0..100000 {
        let ticked = board.clock(store, table);
        board = ticked.board;
        let w = weight(ticked.answer);
        calls = calls.wrapping_add(1);
        sum = sum.wrapping_add(w);
        if w == 0 {
            return Pace { board, calls, sum };
        }
    }
    Pace { board, calls, sum }
}

fn receive(pace: Pace, byte: u8, store: &mut [u8], table: &mut [u16]) -> Pace {
    let mut reply = [0u8; 32];
    let heard = pace.board.receive(byte, [0u8; 4], &mut reply, store, table);
    Pace {
        board: heard.board,
        calls: pace.calls.wrapping_add(1),
        sum: pace.sum.wrapping_add(heard.len() as u64),
    }
}

// The board as it was before the end line of its program.
fn storing(pace: Pace) -> Pace {
    let mut board = pace.board;
    board.engine = board.engine.store().set_held(board.engine.held);
    Pace { board, ..pace }
}

fn list(pace: Pace, store: &[u8], text: &mut [u8]) -> Pace {
    let listed = pace.board.list(store, text);
    Pace {
        calls: pace.calls.wrapping_add(1),
        sum: pace.sum.wrapping_add(listed.unwrap_or(0) as u64),
        ..pace
    }
}

// What a conversion adds to the sum.
fn value(converted: Result<i32, Refusal>) -> u64 {
    match converted {
        Ok(value) => u64::from(1000 < value),
        Err(refusal) => u64::from(refusal.number()),
    }
}

// A distance and a speed that no two turns share.
fn convert(mm: f64) -> u64 {
    let axis = Axis {
        lead: 1.0 + mm / 7.0,
        steps: 400.0,
        gear: 1.5,
    };
    let distance = value(sheet::distance(axis, mm));
    let speed = value(sheet::speed(axis, Rate::PerMinute(mm)));
    distance.wrapping_add(speed)
}

fn convert_all(pace: Pace) -> Pace {
    let mut sum = pace.sum;
    let mut mm = 0.37;
    for _ in 0..500 {
        sum = sum.wrapping_add(convert(mm));
        mm += 11.3;
    }
    Pace {
        calls: pace.calls.wrapping_add(1000),
        sum,
        ..pace
    }
}

fn take_byte(pace: Pace, byte: u8, store: &mut [u8], table: &mut [u16], text: &mut [u8]) -> Pace {
    match byte {
        0 => list(pace, store, text),
        1 => convert_all(pace),
        2 => storing(pace),
        _ => {
            let heard = receive(pace, byte, store, table);
            run(heard, store, table)
        }
    }
}

fn take_all(
    mut pace: Pace,
    input: &[u8],
    store: &mut [u8],
    table: &mut [u16],
    text: &mut [u8],
) -> Pace {
    for byte in input {
        pace = take_byte(pace, *byte, store, table, text);
    }
    pace
}

// In pieces, since the chip on which the calls are counted has no heap.
fn main(rt: HostRuntime) -> io::Result<()> {
    let mut store = [0u8; 16384];
    let mut table = [0u16; 1000];
    let mut text = [0u8; 65536];
    let mut from = rt.stdin().take(65536);
    let mut input = [0u8; 65536];
    let mut pace = Pace {
        board: Board::fresh(),
        calls: 0,
        sum: 0,
    };
    for _ in 0..u64::MAX {
        let n = from.read(&mut input)?;
        if n == 0 {
            break;
        }
        pace = take_all(pace, &input[..n], &mut store, &mut table, &mut text);
    }
    println!(rt; "{} {}", pace.calls, pace.sum)
}
