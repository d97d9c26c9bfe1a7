// `ask`: answers questions, one on each line of its standard input, with one line each (trial/README.md, ask). A line that cannot be read is
// answered `?`.
#![tactic(auto)]

use fields::Fields;
use std::alloc::{AllocError, Global};
use std::io;
use std::io::Read;

mod chain;
mod fields;
mod joins;
mod show;

// The bytes of the longest line that is read.
const LONGEST: usize = 70000;

// Why there is no answer: the line cannot be read, or there is no memory.
#[derive(Debug, Drop)]
pub(crate) enum Fault {
    Unread,
    Memory(AllocError),
}

impl From<AllocError> for Fault {
    fn from(e: AllocError) -> Fault {
        Fault::Memory(e)
    }
}

// The answer to a line, by its first word.
fn answer(alloc: Global, line: &[u8]) -> Result<String, Fault> {
    if LONGEST < line.len() {
        return Err(Fault::Unread);
    }
    let (word, rest) = fields::cut(line);
    let fields = Fields::new(rest);
    match word {
        b"chain" => chain::answer(alloc, fields),
        b"join" => joins::answer(alloc, fields),
        b"lend" => joins::lend(alloc, fields),
        _ => Err(Fault::Unread),
    }
}

// Answers a line.
fn reply(rt: &impl Print, alloc: Global, line: &[u8]) -> io::Result<()> {
    match answer(alloc, line) {
        Ok(mut text) => {
            text.push('\n')?;
            rt.write_all(text.as_bytes())
        }
        Err(Fault::Unread) => println!(rt; "?"),
        Err(Fault::Memory(e)) => Err(e.into()),
    }
}

// One more byte of a line, or its end: a carriage return before a line feed is no part of the line. Of a line too long only so much is kept
// as tells that it is.
fn take_byte(rt: &impl Print, alloc: Global, line: &mut Vec<u8>, b: u8) -> io::Result<()> {
    if b == b'\n' {
        reply(rt, alloc, line.strip_suffix(b"\r").unwrap_or(line))?;
        line.clear();
    } else if line.len() <= LONGEST + 1 {
        line.push(b)?;
    }
    Ok(())
}

// A last line without a line feed is one if it has a byte. Nothing says that the input ends, so the turns are of a number that no run uses up.
fn main(rt: HostRuntime) -> io::Result<()> {
    let alloc = rt.alloc();
    let mut from = rt.stdin();
    let mut input = [0u8; 65536];
    let mut line = Vec::new(alloc);
    for _ in 0..u64::MAX {
        let n = from.read(&mut input)?;
        if n == 0 {
            break;
        }
        for b in &input[..n] {
            take_byte(&rt, alloc, &mut line, *b)?;
        }
    }
    if !line.is_empty() {
        reply(&rt, alloc, &line)?;
    }
    Ok(())
}
