// The fields of a line of questions, parted by one space each.
ghost use Rattle.std.specs.Prelude.{◌≡◌, true, false, ◌++◌, ◌-◌, ◌/◌, ◌≤◌, nat_abs, length, drop};
ghost use Rattle.std.specs.Float.{binary64};
ghost use Rattle.std.specs.Float.Ieee.{of_bits};
ghost use Rattle.count.specs.Pick.{every};
ghost use Rattle.reader.specs.Fields.{field_end, signed_whole, whole_of, is_hex, bits_of, is_dash, are_pairs, byte_of, pairs, given, bytes_of};
ghost use Rattle.reader.specs.work.Sizes.{size_from, sized_whole};

use super::{behind, hex_number, hex_value};
use std::num;

// Where the field that starts at a place of the text ends.
pub fn field_end(text: &[u8], from: usize) -> usize
    ensures { result ≡ field_end text.now from }
{
    from + behind(text, from)
        .iter()
        .take_while(|b| **b != b' ')
        .count()
}

// A whole number of 64 bits with its sign.
pub fn read_whole(field: &[u8]) -> Option<i64>
    ensures { result ≡ whole_of field.now }
{
    match field.strip_prefix(b"-") {
        Some(digits) => signed_whole(true, digits),
        None => signed_whole(false, field),
    }
}

// One of 1 to 19 digits, with a minus or without.
fn signed_whole(minus: bool, digits: &[u8]) -> Option<i64>
    ensures { result ≡ signed_whole minus digits.now }
{
    if digits.is_empty() || digits.len() > 19 {
        return None;
    }
    let size = size_of(digits)?;
    sized_whole(minus, size)
}

// The size that digits come to.
fn size_of(digits: &[u8]) -> Option<u64>
    requires { length digits.now ≤ 19 }
    ensures { result ≡ size_from digits.now 0 }
{
    let mut size = 0;
    for b in digits {
        if !b.is_ascii_digit() {
            return None;
        }
        size = size * 10 + u64::from(*b - b'0');
    }
    Some(size)
}

// A size with its sign, if it is not too large.
fn sized_whole(minus: bool, size: u64) -> Option<i64>
    ensures { result ≡ sized_whole minus size }
{
    if minus {
        i64::try_from(-i128::from(size)).ok()
    } else {
        i64::try_from(size).ok()
    }
}

// The bits of a float.
pub fn read_bits(field: &[u8]) -> Option<u64>
    ensures { result ≡ bits_of field.now }
{
    if field.len() == 16 && all_hex(field) {
        Some(hex_number(field, 0, 16))
    } else {
        None
    }
}

fn is_hex(b: u8) -> bool
    ensures { result ≡ is_hex b }
{
    matches!(b, b'0'..=b'9' | b'a'..=b'f')
}

fn all_hex(field: &[u8]) -> bool
    ensures { result ≡ every is_hex field.now }
{
    field.iter().all(|b| is_hex(*b))
}

// Bytes of two digits each, which then stand at the front of those lent, or `-` for none. Everything is tested before anything is written.
pub fn read_bytes(field: &[u8], bytes: &mut [u8]) -> bool
    ensures { given result bytes.new ≡ bytes_of field.now bytes.old }
{
    if is_dash(field) {
        return true;
    }
    if !are_pairs(field, bytes.len()) {
        return false;
    }
    put_pairs(field, bytes);
    true
}

fn is_dash(field: &[u8]) -> bool
    ensures { result ≡ is_dash field.now }
{
    field == b"-".as_slice()
}

// Whether a field is of pairs of digits, and of no more than `most`. Without branches, as one equation says it.
fn are_pairs(field: &[u8], most: usize) -> bool
    ensures { result ≡ are_pairs field.now most }
{
    let n = field.len() / 2;
    (1 <= n) & (n <= most) & (field.len() % 2 == 0) & all_hex(field)
}

// The byte of two digits.
fn byte_of(high: u8, low: u8) -> u8
    ensures { result ≡ byte_of high low }
{
    (hex_value(high) * 16 + hex_value(low)) as u8
}

// The bytes of all pairs, at the front of those lent. By index: what a `zip` with `chunks_exact` writes was not proved.
fn put_pairs(field: &[u8], bytes: &mut [u8])
    requires { length field.now / 2 ≤ length bytes.old }
    ensures { bytes.new ≡ pairs field.now ++ drop (length (pairs field.now)) bytes.old }
{
    for i in 0..field.len() / 2 {
        bytes[i] = byte_of(field[2 * i], field[2 * i + 1]);
    }
}

// The float of a pattern. Every pattern of not-a-number gives the same.
pub fn float(word: u64) -> f64
    ensures { result ≡ of_bits binary64 word }
{
    num::f64_from_bits_with_nan(word)
}

// |v|, at the whole range of an i32, for a program that prints it.
pub fn magnitude(v: i32) -> u32
    ensures { result ≡ nat_abs v }
{
    v.unsigned_abs()
}
