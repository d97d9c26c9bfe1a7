// `walk`: reads what is sent to a board, runs the board after each byte, and prints its replies and its pulses.
#![tactic(auto)]

ghost use Rattle.std.specs.Prelude.{◌≡◌, ◌≤◌, ◌+◌, min};

use course::Walk;
use std::io;
use std::io::Read;

// The clock calls after each byte.
const MOST: u32 = 100000;

// A walk with what its board is lent, and the buffer of which so much waits to be written.
#[derive(Drop)]
struct Session {
    walk: Walk,
    store: [u8; 16384],
    table: [u16; 1000],
    out: [u8; 65536],
    at: usize,
    ghost within: { at ≤ 65536 },
}

impl Session {
    // What stands before all else.
    fn begin(&mut self) {
        let n = Walk::head(&mut self.out);
        self.advance(n);
    }

    // A portion stands behind what waits.
    fn advance(&mut self, n: usize)
        ensures { self.new.at ≡ min (self.old.at + n) 65536 }
    {
        self.at = self.at.saturating_add(n).min(65536);
    }

    // Writes out what waits.
    fn flush(&mut self, rt: &impl Print) -> io::Result<()> {
        rt.write_all(&self.out[..self.at])?;
        self.at = 0;
        Ok(())
    }

    // Room for a portion: where fewer than 64 bytes are left, the buffer is written out first.
    fn make_room(&mut self, rt: &impl Print) -> io::Result<()> {
        if self.out.len() - self.at < 64 {
            self.flush(rt)?;
        }
        Ok(())
    }

    // The next portion of a run.
    fn go_on(&mut self, rt: &impl Print) -> io::Result<()> {
        self.make_room(rt)?;
        let portion = self
            .walk
            .go_on(&self.store, &self.table, &mut self.out[self.at..]);
        self.walk = portion.walk;
        self.advance(portion.len);
        Ok(())
    }

    // The run after a byte goes on, portion by portion, until it is over or has made its clock calls.
    fn finish_run(&mut self, rt: &impl Print) -> io::Result<()> {
        for _ in 0..MOST {
            if self.walk.over || MOST <= self.walk.calls {
                break;
            }
            self.go_on(rt)?;
        }
        Ok(())
    }

    // One byte with its whole run.
    fn take_byte(&mut self, rt: &impl Print, byte: u8) -> io::Result<()> {
        self.make_room(rt)?;
        let portion = self.walk.next(
            byte,
            &mut self.store,
            &mut self.table,
            &mut self.out[self.at..],
        );
        self.walk = portion.walk;
        self.advance(portion.len);
        self.finish_run(rt)
    }

    // All bytes of a piece of input, or those up to a run that is not over. Each turn takes one or more.
    fn take_all(&mut self, rt: &impl Print, input: &[u8]) -> io::Result<()> {
        let mut left = input;
        for _ in 0..input.len() {
            if !self.walk.over {
                break;
            }
            let fed = self.walk.feed(left);
            self.walk = fed.walk;
            let Some((byte, behind)) = left.get(fed.count..).and_then(|rest| rest.split_first())
            else {
                break;
            };
            self.take_byte(rt, *byte)?;
            left = behind;
        }
        Ok(())
    }

    // Everything that is read, or what comes before a run that is not over.
    fn take_input(&mut self, rt: &impl Print, from: &mut impl Read) -> io::Result<()> {
        let mut input = [0u8; 65536];
        for _ in 0..u64::MAX {
            let n = from.read(&mut input)?;
            self.take_all(rt, &input[..n])?;
            if n == 0 || !self.walk.over {
                break;
            }
        }
        Ok(())
    }

    // The end of the output.
    fn finish(&mut self, rt: &impl Print) -> io::Result<()> {
        self.make_room(rt)?;
        let n = self.walk.tail(&mut self.out[self.at..]);
        self.advance(n);
        self.flush(rt)
    }
}

// A session is made where it stays: handed on, its buffers would stand on the stack once more for each hand, which a small chip does not have.
fn main(rt: HostRuntime) -> io::Result<()> {
    let mut session = Session {
        walk: Walk::new(),
        store: [0; 16384],
        table: [0; 1000],
        out: [0; 65536],
        at: 0,
    };
    session.begin();
    session.take_input(&rt, &mut rt.stdin())?;
    session.finish(&rt)
}
