// Records of the store: what is wrong with one, its bytes, its place, the table of the places, storing it, listing it.
#![tactic(auto)]

ghost use Rattle.std.specs.Prelude.{◌≡◌, length};
ghost use Rattle.record.specs.Bytes.{numbers_of, length_of};
ghost use Rattle.record.specs.Places.{in_use};

mod bytes;
mod fault;
mod keep;
mod listing;
mod places;
mod table;

pub use bytes::record_at;
pub use fault::record_fault;
pub use keep::store_record;
pub use listing::list;
pub use places::readable;
pub use table::{fetch, fill, find};

// The store's part in use: its bytes, its records and the axes that it was written under.
#[repr(C)]
#[derive(Clone, Copy)]
pub struct Held {
    pub used: u16,
    pub records: u16,
    pub axes: u8,
}

impl Held {
    // Where it ends in a store.
    pub fn end(self, store: &[u8]) -> usize
        ensures { result ≡ length (in_use self store.now) }
    {
        store.len().min(usize::from(self.used))
    }
}

// A record: its code, and its numbers in the first `count` of the words; the words past them are 0. An array and a count: fixed memory.
#[derive(Clone, Copy)]
pub struct Record {
    pub code: u8,
    pub count: u8,
    pub words: [u32; 8],
}

impl Record {
    // Its numbers.
    fn numbers(&self) -> &[u32]
        ensures { result.now ≡ numbers_of self.now }
    {
        &self.words[..usize::from(self.count).min(8)]
    }

    // How many bytes it takes.
    pub fn len(self) -> u16
        ensures { result ≡ length_of self }
    {
        4 + 4 * u16::from(self.count)
    }
}

// What is found at a place or a byte: a record, the end place, or nothing that can be read. Three outcomes, so no `Option` or `Result`.
#[derive(Clone, Copy)]
pub enum Found {
    Got(Record),
    End,
    Wrong,
}
