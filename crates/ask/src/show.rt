// The text of an answer, without its line feed.
use record::Held;
use std::alloc::{AllocError, Global};

// 0 and the numbers delivered.
pub(crate) fn chained(alloc: Global, steps: &[i32]) -> Result<String, AllocError> {
    let mut text = format!(in alloc; "0")?;
    for step in steps {
        write!(text, " {step}")?;
    }
    Ok(text)
}

// A hexadecimal digit.
fn digit(n: u8) -> char {
    char::from_digit(u32::from(n), 16).unwrap_or('0')
}

// Two digits for each byte, or `-` for none; not by `{:02x}`, which takes some 200 instructions for a byte where this takes some 30.
fn put_bytes(text: &mut String, bytes: &[u8]) -> Result<(), AllocError> {
    if bytes.is_empty() {
        text.push('-')?;
    }
    for b in bytes {
        text.push(digit(b / 16))?;
        text.push(digit(b % 16))?;
    }
    Ok(())
}

// Entries parted by commas, or `-` for none.
fn put_entries(text: &mut String, entries: &[u16]) -> Result<(), AllocError> {
    if entries.is_empty() {
        text.push('-')?;
    }
    for (i, entry) in entries.iter().enumerate() {
        if i > 0 {
            text.push(',')?;
        }
        write!(text, "{entry}")?;
    }
    Ok(())
}

// 0 and the joined program: its bytes in use, and entries of its table.
pub(crate) fn joined(
    alloc: Global,
    held: Held,
    bytes: &[u8],
    entries: &[u16],
) -> Result<String, AllocError> {
    let Held {
        used,
        records,
        axes,
    } = held;
    let mut text = format!(in alloc; "0 {used} {records} {axes} ")?;
    put_bytes(&mut text, bytes)?;
    text.push(' ')?;
    put_entries(&mut text, entries)?;
    Ok(text)
}
