// `calls`: drives a board call by call from a script on standard input (trial/README.md), and prints what each call answers.
#![tactic(auto)]

mod arcs;
mod host;
mod quiet;
mod script;
mod show;

use board::{Board, Received};
use count::Refusal;
use host::board_with;
use record::Held;
use script::Command;
use show::{show_filled, show_heard, show_listing, show_state, show_ticked};
use std::alloc::Global;
use std::io;
use std::io::{BufRead, BufReader, Read};

// How many bytes the store has that the next call is lent, how many entries the table, and how many bytes the reply buffer.
#[derive(Clone, Copy)]
pub(crate) struct Lent {
    pub store: usize,
    pub table: usize,
    pub reply: usize,
}

// The bytes of a line that are kept, its line feed with them: no command has half as many.
const KEPT: u64 = 128;

const USUAL: Lent = Lent {
    store: 16384,
    table: 1000,
    reply: 32,
};

impl Lent {
    fn hear(
        self,
        board: Board,
        ports: [u8; 4],
        byte: u8,
        reply: &mut [u8],
        space: &mut [u8],
        table: &mut [u16],
    ) -> Received {
        let n = self.store.min(space.len());
        let k = self.table.min(table.len());
        board.receive(byte, ports, reply, &mut space[..n], &mut table[..k])
    }

    fn fill(self, held: Held, space: &[u8], table: &mut [u16]) -> Result<(), Refusal> {
        let n = self.store.min(space.len());
        let k = self.table.min(table.len());
        record::fill(&space[..n], &mut table[..k], held)
    }
}

// Where a script has come to: the board, the input ports, the bytes and entries that stores and tables are the first of, how many of them the
// next call is lent, whether a run is over, and whether a line may follow.
#[derive(Drop)]
pub(crate) struct Play {
    pub board: Board,
    pub ports: [u8; 4],
    pub space: [u8; 65536],
    pub table: [u16; 2000],
    pub lent: Lent,
    pub over: bool,
    pub more: bool,
}

impl Play {
    fn new() -> Play {
        Play {
            board: Board::fresh(),
            ports: [0; 4],
            space: [0; 65536],
            table: [0; 2000],
            lent: USUAL,
            over: true,
            more: true,
        }
    }

    // The store is the first 16,384 bytes of the space, and the table the first 1,000 entries of its own. One of another length is the first
    // of them too: a call that refuses its store or its table leaves it alone.
    pub(crate) fn store(&self) -> &[u8] {
        &self.space[..self.lent.store.min(self.space.len())]
    }

    pub(crate) fn entries(&self) -> &[u16] {
        &self.table[..self.lent.table.min(self.table.len())]
    }

    // A call was made: the next one is lent what is usual.
    pub(crate) fn called(&mut self, board: Board) {
        self.board = board;
        self.lent = USUAL;
    }

    // A byte is received.
    fn receive(&mut self, rt: &impl Print, alloc: Global, byte: u8) -> io::Result<()> {
        let mut reply = vec![in alloc; 0; self.lent.reply]?;
        let (board, ports, lent) = (self.board, self.ports, self.lent);
        let heard = lent.hear(
            board,
            ports,
            byte,
            &mut reply,
            &mut self.space,
            &mut self.table,
        );
        self.called(heard.board);
        reply.truncate(heard.len());
        show_heard(rt, heard.reply, &reply)
    }

    fn clock(&mut self, rt: &impl Print) -> io::Result<()> {
        let ticked = self.board.clock(self.store(), self.entries());
        self.called(ticked.board);
        show_ticked(rt, ticked.answer)
    }

    fn list(&mut self, rt: &impl Print, alloc: Global) -> io::Result<()> {
        let mut text = vec![in alloc; 0; 32768]?;
        let listed = self.board.list(self.store(), &mut text);
        self.called(self.board);
        text.truncate(listed.unwrap_or(0) as usize);
        show_listing(rt, alloc, listed, &text)
    }

    // The table is filled from the store, for what the board says that it holds.
    fn fill(&mut self, rt: &impl Print) -> io::Result<()> {
        let held = self.board.engine.held;
        let filled = self.lent.fill(held, &self.space, &mut self.table);
        self.called(self.board);
        show_filled(rt, filled)
    }

    // What a command does; says whether it could be done.
    fn act(&mut self, rt: &impl Print, alloc: Global, command: Command<'_>) -> io::Result<bool> {
        match command {
            Command::Receive(byte) => self.receive(rt, alloc, byte)?,
            Command::Clock(n) => {
                for _ in 0..n {
                    self.clock(rt)?;
                }
            }
            Command::End => self.more = self.over,
            Command::Fill => self.fill(rt)?,
            Command::Set(name, number) => match board_with(self.board, name, number) {
                Some(board) => self.board = board,
                None => return Ok(false),
            },
            Command::Ports(ports) => self.ports = ports,
            Command::Hold(held) => self.board.engine = self.board.engine.set_held(held),
            Command::List => self.list(rt, alloc)?,
            Command::LendStore(n) => self.lent.store = n,
            Command::Mark(n) => println!(rt; "N {n}")?,
            Command::Run(n) => self.run(rt, n)?,
            Command::LendReply(n) => self.lent.reply = n,
            Command::State => show_state(rt, self.board)?,
            Command::Enter(place, start) => set(&mut self.table, place, start),
            Command::LendTable(n) => self.lent.table = n,
            Command::Look(place) => {
                if let Some(start) = self.table.get(place) {
                    println!(rt; "V {start}")?;
                }
            }
            Command::Poke(at, b) => set(&mut self.space, at, b),
        }
        Ok(true)
    }

    // One line; says whether it was right. No command has more than five fields, so a sixth tells a longer line.
    fn take(&mut self, rt: &impl Print, alloc: Global, line: &[u8]) -> io::Result<bool> {
        let fields: Vec<&[u8]> = line.split(|b| *b == b' ').take(6).collect(alloc)?;
        match Command::of(&fields) {
            Some(command) => self.act(rt, alloc, command),
            None => Ok(false),
        }
    }
}

// The host writes a byte of the store or an entry of the table.
fn set<T: Copy>(places: &mut [T], at: usize, value: T) {
    if let Some(place) = places.get_mut(at) {
        *place = value;
    }
}

// The next line with its line feed, or as much as is kept of it; says whether it has one, since behind a line without nothing follows and no more
// is read: on a terminal more could be typed.
fn read_row(input: &mut impl BufRead, row: &mut Vec<u8>) -> io::Result<bool> {
    row.clear();
    for _ in 0..u64::MAX {
        let n = input.by_ref().take(KEPT).read_until(b'\n', row)?;
        if row.ends_with(b"\n") {
            return Ok(true);
        }
        if (n as u64) < KEPT {
            break;
        }
        row.truncate(KEPT as usize);
    }
    Ok(false)
}

// A wrong line prints its number.
fn main(rt: HostRuntime) -> io::Result<()> {
    let mut play = Play::new();
    let mut input = BufReader::new(rt.alloc(), rt.stdin())?;
    let mut row = Vec::new(rt.alloc());
    for number in 1..u64::MAX {
        let more = read_row(&mut input, &mut row)?;
        if row.is_empty() {
            break;
        }
        let line = row.strip_suffix(b"\n").unwrap_or(&row);
        if !play.take(&rt, rt.alloc(), line)? {
            println!(rt; "? {number}")?;
        }
        if !more || !play.more {
            break;
        }
    }
    Ok(())
}
