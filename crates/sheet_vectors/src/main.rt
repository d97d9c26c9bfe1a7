// Runs the sheet on the vectors of its standard input, one to a line: a letter and four patterns of sixteen hexadecimal digits in small
// letters, each behind one space (tests/vectors/sheet.py). Writes the refusal and the value of each. For a line that is none it writes
// `? ` and the number of the line, from 1.
#![tactic(auto)]

use sheet::{Axis, Rate, Refusal};
use std::io;
use std::io::Read;

// The bytes of a right line.
const WIDTH: usize = 69;

// Whether a byte may stand at a place of a line behind the letter.
fn is_right_at(i: usize, b: u8) -> bool {
    if i % 17 == 1 {
        b == b' '
    } else {
        matches!(b, b'0'..=b'9' | b'a'..=b'f')
    }
}

fn is_row(line: &[u8]) -> bool {
    line.len() == WIDTH
        && line
            .iter()
            .enumerate()
            .skip(1)
            .all(|(i, b)| is_right_at(i, *b))
}

// The pattern that starts at a place of the line, and its float.
fn word(line: &[u8], at: usize) -> u64 {
    reader::hex_number(line, at, 16)
}

fn float(line: &[u8], at: usize) -> f64 {
    reader::float(word(line, at))
}

// What a line converts to, if it is one. A whole number is in two's complement.
fn converted(line: &[u8]) -> Option<Result<i32, Refusal>> {
    if !is_row(line) {
        return None;
    }
    let axis = Axis {
        lead: float(line, 2),
        steps: float(line, 19),
        gear: float(line, 36),
    };
    let value = float(line, 53);
    match line.first()? {
        b'D' => Some(sheet::distance(axis, value)),
        b'S' => Some(sheet::speed(axis, Rate::PerSecond(value))),
        b'M' => Some(sheet::speed(axis, Rate::PerMinute(value))),
        b'N' => {
            let steps = i64::from_le_bytes(word(line, 53).to_le_bytes());
            Some(sheet::speed(axis, Rate::Steps(steps)))
        }
        _ => None,
    }
}

fn answer(rt: &impl Print, number: u64, line: &[u8]) -> io::Result<()> {
    match converted(line) {
        Some(Ok(value)) => println!(rt; "0 {value}"),
        Some(Err(refusal)) => println!(rt; "{} 0", refusal.number()),
        None => println!(rt; "? {number}"),
    }
}

// The line being read: its bytes, how many it has (71 stands for more than 70, which is the most with a carriage return), and its number. An
// array and a length: the page for the classroom runs this program, and nothing of what it runs there asks for a heap.
#[derive(Drop)]
struct Row {
    bytes: [u8; 70],
    len: usize,
    number: u64,
}

impl Row {
    // What was read of it; a line that is too long is none, as an empty one.
    fn text(&self) -> &[u8] {
        self.bytes.get(..self.len).unwrap_or(&[])
    }

    // One byte. A line feed ends the line, and a carriage return before it is no part of the line.
    fn take_byte(&mut self, rt: &impl Print, b: u8) -> io::Result<()> {
        if b == b'\n' {
            let line = self.text();
            answer(rt, self.number, line.strip_suffix(b"\r").unwrap_or(line))?;
            self.len = 0;
            self.number = self.number.saturating_add(1);
            return Ok(());
        }
        if let Some(place) = self.bytes.get_mut(self.len) {
            *place = b;
        }
        self.len = self.len.saturating_add(1).min(71);
        Ok(())
    }
}

// A last line without a line feed is one if it has a byte, and is as it stands.
fn main(rt: HostRuntime) -> io::Result<()> {
    let mut from = rt.stdin();
    let mut input = [0u8; 65536];
    let mut row = Row {
        bytes: [0; 70],
        len: 0,
        number: 1,
    };
    for _ in 0..u64::MAX {
        let n = from.read(&mut input)?;
        if n == 0 {
            break;
        }
        for b in &input[..n] {
            row.take_byte(&rt, *b)?;
        }
    }
    if 0 < row.len {
        answer(&rt, row.number, row.text())?;
    }
    Ok(())
}
