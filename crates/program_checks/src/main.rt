// Checks and runs the programs of its standard input (tests/vectors/programs.py). A program is a line of 18 bytes, `used records axes
// bytes` in hexadecimal digits, and a line of the store's bytes, two digits each. Writes the verdict, and the places of its first 40 records.
#![tactic(auto)]

use program::{Flaw, Going, Loops};
use record::{Found, Held};
use std::alloc::Global;
use std::io;
use std::io::Read;

// The two digits that start at a place of the text.
fn byte(text: &[u8], at: usize) -> u8 {
    (reader::hex_number(text, at, 2) % 256) as u8
}

// The four digits that start at a place of the text.
fn number(text: &[u8], at: usize) -> u16 {
    (reader::hex_number(text, at, 4) % 65536) as u16
}

fn show(rt: &impl Print, checked: Result<(), Flaw>) -> io::Result<()> {
    match checked {
        Ok(()) => print!(rt; "0"),
        Err(Flaw::Fault(rule, place)) => {
            rt.write_all(&[rule.letter()])?;
            print!(rt; " {place}")
        }
        Err(Flaw::Unreadable) => print!(rt; "G"),
    }
}

// The places of a run's first records; the first wait hears another character, the second its own, and so on.
fn run(rt: &impl Print, store: &[u8], table: &[u16], held: Held) -> io::Result<()> {
    let mut place = 0;
    let mut loops = Loops::none();
    let mut hears = false;
    for _ in 0..40 {
        let Found::Got(item) = record::fetch(store, table, held, place) else {
            return print!(rt; " E");
        };
        print!(rt; " {place}")?;
        let way = program::onward(item, place, held.records, loops);
        place = match way.going {
            Going::To(next) => next,
            Going::Waits { place, target } => {
                hears = !hears;
                if hears { place } else { target }
            }
            Going::Wrong => return print!(rt; " G"),
        };
        loops = way.loops;
    }
    Ok(())
}

// Where each record starts, by walking from the front: `record::fill` takes whole stores of at most 1,000 records, and these are any.
fn walk(store: &[u8], held: Held) -> [u16; 1000] {
    let mut table = [0; 1000];
    let mut at: u16 = 0;
    for start in table.iter_mut() {
        *start = at;
        if let Found::Got(item) = record::record_at(store, held, usize::from(at)) {
            at = at.wrapping_add(item.len());
        }
    }
    table
}

fn answer(rt: &impl Print, store: &[u8], held: Held) -> io::Result<()> {
    show(rt, program::check(store, held))?;
    if record::readable(store, held) {
        print!(rt; ":")?;
        run(rt, store, &walk(store, held), held)?;
    }
    println!(rt;)
}

// Reads a program, writes its answer, and says whether there was one. Digits that the input lacks are 0.
fn one_program(rt: &impl Print, alloc: Global, from: &mut impl Read) -> io::Result<bool> {
    let mut line = Vec::new(alloc);
    from.by_ref().take(18).read_to_end(&mut line)?;
    if line.len() < 18 {
        return Ok(false);
    }
    let held = Held {
        used: number(&line, 0),
        records: number(&line, 5),
        axes: byte(&line, 10),
    };
    let digits = 2 * usize::from(number(&line, 13));
    if 32768 < digits {
        return Ok(false);
    }
    let mut text = Vec::new(alloc);
    from.by_ref().take(digits as u64).read_to_end(&mut text)?;
    text.resize(digits, b'0')?;
    from.read(&mut [0])?;
    let store: Vec<u8> = text
        .chunks_exact(2)
        .map(|pair| byte(pair, 0))
        .collect(alloc)?;
    answer(rt, &store, held)?;
    Ok(true)
}

// Nothing says that the input ends, so the turns count to a number that no run uses up.
fn main(rt: HostRuntime) -> io::Result<()> {
    let mut from = rt.stdin();
    for _ in 0..u64::MAX {
        if !one_program(&rt, rt.alloc(), &mut from)? {
            break;
        }
    }
    Ok(())
}
