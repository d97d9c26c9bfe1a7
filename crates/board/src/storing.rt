// A line while storing: a record's, or the end.
ghost use Rattle.std.specs.Prelude.{◌≡◌, true, ◌≤◌, Some};
ghost use Rattle.record.specs.Memory.{memory};
ghost use Rattle.record.specs.Fault.{is_code};
ghost use Rattle.line.specs.Said.{stored_found};
ghost use Rattle.line.specs.Lines.{stored_of};
ghost use Rattle.board.specs.State.{text_of};
ghost use Rattle.board.specs.Storing.{record_of, record_said, stored_said};
ghost use Rattle.board.specs.work.Work.{spoke, kept_said, Ended};

use crate::{Board, Saying, Spoke};
use count::Fault;
use line::{Code, Stored};
use program::Flaw;
use record::Record;

impl Board {
    // A right record is written at the end of the part in use, where there is room for it.
    fn keep(self, item: Record, store: &mut [u8], table: &mut [u16]) -> Spoke
        ensures { spoke result (memory store.new table.new) ≡ kept_said item self (memory store.old table.old) }
    {
        let e = self.engine;
        match record::store_record(store, table, e.held, item) {
            Some(held) => self.replies(e.set_held(held), b'0'),
            None => self.replies(e, Fault::Full.letter()),
        }
    }

    fn record_line(self, code: u8, d: Stored, store: &mut [u8], table: &mut [u16]) -> Spoke
        requires { is_code code ≡ true }
        ensures { spoke result (memory store.new table.new) ≡ record_said (record_of code (stored_found (Some d))) self (memory store.old table.old) }
    {
        let e = self.engine;
        let words = d.words;
        if let Err(fault) = record::record_fault(e.held.axes, code, d.count, words) {
            return self.replies(e, fault.letter());
        }
        let item = Record {
            code,
            count: d.count as u8,
            words,
        };
        self.keep(item, store, table)
    }

    // `9` ends storing: 0; or, with the store emptied, G with the letter and the place of the fault, alone if the store isn't readable.
    fn end_storing(self, store: &[u8]) -> Spoke
        ensures { Ended result self store.now }
    {
        let e = self.engine;
        match program::check(store, e.held) {
            Ok(()) => self.replies(e.cease(), b'0'),
            Err(Flaw::Fault(rule, place)) => self
                .with_engine(e.empty().cease())
                .says(Saying::Fault(rule.letter(), place)),
            Err(Flaw::Unreadable) => self.replies(e.empty().cease(), Fault::Refused.letter()),
        }
    }

    pub(crate) fn store_line(self, store: &mut [u8], table: &mut [u16]) -> Spoke
        requires { self.line.len ≤ 80 }
        ensures { spoke result (memory store.new table.new) ≡ stored_said (stored_of (text_of self.line)) self (memory store.old table.old) }
    {
        // Of a copy: read where it stands, a line takes longer.
        let l = self.line;
        match line::stored_line(l.text()) {
            None => self.replies(self.engine, Fault::Shape.letter()),
            Some(d) => match d.code {
                Code::Record(c) => self.record_line(c, d, store, table),
                Code::End => self.end_storing(&store[..]),
            },
        }
    }
}
