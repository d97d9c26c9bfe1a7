// Clock calls on programs of every kind. The first number says how many steps follow. Each is eleven numbers: its kind, then what it is
// of; what a step prints stands at its function.
#![tactic(auto)]

use count::Fault;
use engine::{Answer, Engine, Run};
use program::Loops;
use record::{Held, Record};
use std::io;
use std::io::Read;

fn byte_of(w: u32) -> u8 {
    u8::try_from(w).unwrap_or(255)
}

fn half_of(w: u32) -> u16 {
    u16::try_from(w).unwrap_or(65535)
}

// A clock call's answer: P with signs and speed, W a pause, S and a byte, D done, N nothing.
fn show_answer(rt: &impl Print, answer: Answer) -> io::Result<()> {
    match answer {
        Answer::Pulse(signs, speed) => println!(rt; "P {signs} {speed}"),
        Answer::Pause => println!(rt; "W"),
        Answer::Send(b) => println!(rt; "S {b}"),
        Answer::Done => println!(rt; "D"),
        Answer::Nothing => println!(rt; "N"),
    }
}

// E, the positions, the origins, 3D, plane and direction, the part in use, whether it runs and whether it passes 103.
fn show_engine(rt: &impl Print, e: Engine) -> io::Result<()> {
    let three = u8::from(e.three);
    let plane = e.circling.plane.number();
    let direction = e.circling.direction.number();
    let Held {
        used,
        records,
        axes,
    } = e.held;
    let runs = u8::from(e.runs());
    let sound = u8::from(e.sound());
    print!(rt; "E {} {}", e.at, e.origin)?;
    println!(rt; " {three} {plane} {direction} {used} {records} {axes} {runs} {sound}")
}

// So many clock calls.
fn ticks(
    rt: &impl Print,
    first: Engine,
    store: &[u8],
    table: &[u16],
    n: u32,
) -> io::Result<Engine> {
    let mut e = first;
    for _ in 0..n {
        let told = e.tick(store, table);
        show_answer(rt, told.answer)?;
        e = told.engine;
    }
    Ok(e)
}

// The eight numbers at the end of a step.
fn words_of(w: [u32; 11]) -> [u32; 8] {
    *w[3..].first_chunk().unwrap()
}

// A direct movement or circle: B and the reply.
fn begun(rt: &impl Print, e: Engine, begun: Result<Option<Engine>, Fault>) -> io::Result<Engine> {
    let reply = match begun {
        Ok(Some(_)) => 0,
        Ok(None) => b'0',
        Err(fault) => fault.letter(),
    };
    println!(rt; "B {reply}")?;
    Ok(begun.unwrap_or(None).unwrap_or(e))
}

// The part in use as a host sets it.
fn held_as(w: [u32; 11]) -> Held {
    Held {
        used: half_of(w[1]),
        records: half_of(w[2]),
        axes: byte_of(w[3]),
    }
}

// The next place and the number of open loops as a host sets them.
fn run_as(e: Engine, w: [u32; 11]) -> Engine {
    let loops = Loops {
        depth: byte_of(w[2]),
        ..e.run.loops
    };
    let run = Run {
        place: half_of(w[1]),
        loops,
        ..e.run
    };
    Engine { run, ..e }
}

// A record stored, where it is right under the store's axes and has room: K and whether.
fn keep(
    rt: &impl Print,
    e: Engine,
    store: &mut [u8],
    table: &mut [u16],
    w: [u32; 11],
) -> io::Result<Engine> {
    let item = Record {
        code: byte_of(w[1]),
        count: byte_of(w[2]),
        words: words_of(w),
    };
    let stored = record::store_record(store, table, e.held, item);
    println!(rt; "K {}", u8::from(stored.is_some()))?;
    Ok(e.set_held(stored.unwrap_or(e.held)))
}

// A byte of the store or an entry of the table as a host sets it.
fn set<T: Copy>(places: &mut [T], at: u32, value: T) {
    if let Some(place) = places.get_mut(at as usize) {
        *place = value;
    }
}

// One step. The kinds are numbers of the vectors, which stand nowhere else: an enum between would name each once more.
fn act(
    rt: &impl Print,
    e: Engine,
    store: &mut [u8],
    table: &mut [u16],
    w: [u32; 11],
) -> io::Result<Engine> {
    let next = match w[0] {
        0 => Engine::fresh().set_axes(byte_of(w[1])),
        1 => e.store(),
        2 => keep(rt, e, store, table, w)?,
        3 => e.cease(),
        4 => e.start(),
        5 => ticks(rt, e, store, table, w[1])?,
        6 => e.hear(byte_of(w[1])),
        7 => begun(rt, e, e.begin(w[1] == 1, words_of(w)))?,
        8 => {
            set(store, w[1], byte_of(w[2]));
            e
        }
        9 => e.set_held(held_as(w)),
        10 => run_as(e, w),
        11 => e.set_three(w[1] == 1),
        12 => e.set_zero(byte_of(w[1])),
        13 => e.set_origin(byte_of(w[1])),
        14 => e.reset(),
        15 => e.empty(),
        16 => e.set_output(byte_of(w[1])),
        18 => {
            set(table, w[1], half_of(w[2]));
            e
        }
        19 => e.set_plane(w[1]),
        20 => e.set_direction(w[1]),
        21 => begun(rt, e, e.begin_circle(words_of(w)))?,
        22 => e.set_axes(byte_of(w[1])),
        _ => {
            show_engine(rt, e)?;
            e
        }
    };
    Ok(next)
}

// At most 131,072 bytes are read: the steps need more than half of that.
fn main(rt: HostRuntime) -> io::Result<()> {
    let mut text = Vec::new(rt.alloc());
    rt.stdin().take(131072).read_to_end(&mut text)?;
    let mut store = [0; 16384];
    let mut table = [0; 1000];
    let mut words = [0; 11];
    let mut e = Engine::fresh();
    let first = reader::next_number(&text, 0);
    let mut at = first.at;
    for _ in 0..first.word {
        at = reader::next_numbers(&text, at, &mut words);
        e = act(&rt, e, &mut store, &mut table, words)?;
    }
    Ok(())
}
