// Reads lines, each `D ` or `S ` and a line's bytes as hexadecimal pairs, and prints what the line says: its letter or code as
// the paper's number, how many numbers it has, and the first eight of them.
#![tactic(auto)]

ghost use Rattle.std.specs.Prelude.{◌≡◌, ◌/◌, IfOk, min, length, vec_len};

use line::{Code, Letter};
use std::alloc::{AllocError, Global};
use std::io;
use std::io::Read;

// The bytes of hexadecimal pairs, 4,096 at most. A digit left over is none.
fn bytes_of(alloc: Global, pairs: &[u8]) -> Result<Vec<u8>, AllocError>
    ensures { IfOk result (λ bytes. vec_len bytes ≡ min (length pairs.now / 2) 4096) }
{
    pairs
        .chunks_exact(2)
        .take(4096)
        .map(|pair| (reader::hex_number(pair, 0, 2) % 256) as u8)
        .collect(alloc)
}

fn letter_byte(letter: Letter) -> u8 {
    match letter {
        Letter::Axes => b'0',
        Letter::Relative => b'A',
        Letter::Absolute => b'M',
        Letter::Origin => b'n',
        Letter::Zero => b'N',
        Letter::Three => b'z',
        Letter::Position => b'P',
        Letter::Input => b'b',
        Letter::Output => b'B',
        Letter::Store => b'i',
        Letter::Empty => b'k',
        Letter::Start => b'S',
        Letter::Plane => b'e',
        Letter::Direction => b'f',
        Letter::Circle => b'y',
    }
}

fn code_byte(code: Code) -> u8 {
    match code {
        Code::Record(code) => code,
        Code::End => b'9',
    }
}

fn print_row(rt: &impl Print, byte: u8, count: usize, words: [u32; 8]) -> io::Result<()> {
    print!(rt; "{byte} {count}")?;
    for word in words {
        print!(rt; " {}", word.cast_signed())?;
    }
    println!(rt;)
}

// A wrong shape is the paper's 5, and has no numbers.
fn print_wrong(rt: &impl Print) -> io::Result<()> {
    print_row(rt, b'5', 0, [0; 8])
}

// One input line.
fn show(rt: &impl Print, alloc: Global, row: &[u8]) -> io::Result<()> {
    if row.len() < 2 {
        return Ok(());
    }
    let bytes = bytes_of(alloc, &row[2..])?;
    if row[0] == b'D' {
        match line::direct_line(&bytes) {
            Some(d) => print_row(rt, letter_byte(d.letter), d.count, d.words),
            None => print_wrong(rt),
        }
    } else {
        match line::stored_line(&bytes) {
            Some(t) => print_row(rt, code_byte(t.code), t.count, t.words),
            None => print_wrong(rt),
        }
    }
}

// At most 65,536 bytes are read.
fn main(rt: HostRuntime) -> io::Result<()> {
    let mut input = Vec::new(rt.alloc());
    rt.stdin().take(65536).read_to_end(&mut input)?;
    for row in input.split(|b| *b == b'\n') {
        show(&rt, rt.alloc(), row)?;
    }
    Ok(())
}
