// The listings of the stores on standard input (tests/vectors/lists.py). The first number says how many stores follow. Each is its axes,
// how many kinds of record follow, and eleven numbers for each: how often it is stored, its code, its count of numbers and eight words.
#![tactic(auto)]

use record::{Found, Held, Record};
use std::io;
use std::io::Read;

// A store with its table, and the part in use.
#[derive(Drop)]
struct Filled {
    store: [u8; 16384],
    table: [u16; 1000],
    held: Held,
}

impl Filled {
    fn empty(axes: u8) -> Filled {
        Filled {
            store: [0; 16384],
            table: [0; 1000],
            held: Held {
                used: 0,
                records: 0,
                axes,
            },
        }
    }

    // Stores a record so many times, as far as there is room.
    fn put(&mut self, item: Record, times: u32) {
        for _ in 0..times {
            match record::store_record(&mut self.store, &mut self.table, self.held, item) {
                Some(longer) => self.held = longer,
                None => break,
            }
        }
    }

    // Another store, with what is fetched from the places of this one, from the first to the last.
    fn again(&self) -> Filled {
        let mut other = Filled::empty(self.held.axes);
        for place in 0..self.held.records {
            if let Found::Got(item) = record::fetch(&self.store, &self.table, self.held, place) {
                other.put(item, 1);
            }
        }
        other
    }

    // Whether the parts in use of two stores are the same, and their tables.
    fn is_same(&self, other: &Filled) -> bool {
        let used = usize::from(self.held.used);
        self.held.used == other.held.used
            && self.held.records == other.held.records
            && used <= self.store.len()
            && self.store[..used] == other.store[..used]
            && self.table == other.table
    }

    // Whether the table is the one that is filled from the store.
    fn is_filled(&self) -> bool {
        let mut table = [0; 1000];
        record::fill(&self.store, &mut table, self.held).is_ok() && self.table == table
    }
}

fn byte_of(w: u32) -> u8 {
    u8::try_from(w).unwrap_or(255)
}

// The listing as it stands in the buffer, and a line feed.
fn show_listing(rt: &impl Print, text: &[u8], len: u32) -> io::Result<()> {
    if let Some(listing) = text.get(..len as usize) {
        rt.write_all(listing)?;
    }
    println!(rt;)
}

// The listing of a store, and whether its records, fetched and stored again, give the same bytes and the same table, which is the one that
// is filled too; or what refuses the listing.
fn show_store(rt: &impl Print, filled: &Filled) -> io::Result<()> {
    let mut lines = [0; 32768];
    match record::list(&filled.store, filled.held, &mut lines) {
        Ok(len) => show_listing(rt, &lines, len)?,
        Err(refusal) => return println!(rt; "refused {}", refusal.number()),
    }
    if filled.is_same(&filled.again()) && filled.is_filled() {
        println!(rt; "same")
    } else {
        println!(rt; "differs")
    }
}

// One store of the text; answers where the text goes on.
fn one_store(rt: &impl Print, text: &[u8], from: usize) -> io::Result<usize> {
    let axes = reader::next_number(text, from);
    let kinds = reader::next_number(text, axes.at);
    let mut filled = Filled::empty(byte_of(axes.word));
    let mut numbers = [0; 11];
    let mut at = kinds.at;
    for _ in 0..kinds.word {
        at = reader::next_numbers(text, at, &mut numbers);
        let [times, code, count, ..] = numbers;
        let item = Record {
            code: byte_of(code),
            count: byte_of(count),
            words: *numbers[3..].first_chunk().unwrap(),
        };
        filled.put(item, times);
    }
    show_store(rt, &filled)?;
    Ok(at)
}

// At most 65,536 bytes are read.
fn main(rt: HostRuntime) -> io::Result<()> {
    let mut text = Vec::new(rt.alloc());
    rt.stdin().take(65536).read_to_end(&mut text)?;
    let stores = reader::next_number(&text, 0);
    let mut at = stores.at;
    for _ in 0..stores.word {
        at = one_store(&rt, &text, at)?;
    }
    Ok(())
}
