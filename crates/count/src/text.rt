// Numbers as text, each written at the front of a lent part; a part that is too short stays as it is.
ghost use Rattle.std.specs.Prelude.{◌≡◌, ◌++◌, ◌+◌, ◌<◌, ◌≤◌, ◌%◌, negsuc, length, drop};
ghost use Rattle.count.specs.Numbers.{value, signed};
ghost use Rattle.count.specs.Text.{written, wrote, hex_digit, twos24, report, last_digits, two_hex, digits, shown, four_digits};

use super::{FULL, HALF};

// The greatest word of a number that is not below 0.
const MOST: u32 = u32::MAX / 2;

// A digit of a base of at most 16.
fn hex_digit(n: u32) -> u8
    requires { n < 16 }
    ensures { result ≡ hex_digit n }
{
    let d = n as u8;
    if d < 10 { b'0' + d } else { b'A' + (d - 10) }
}

// The last `count` digits of a number in a base of at most 16: how many are wanted, which is not the buffer's length.
fn put_last(text: &mut [u8], base: u32, count: usize, n: u32) -> usize
    requires { (0 < base) × (base ≤ 16) }
    ensures { written result text.new ≡ wrote count (last_digits base count n) text.old }
{
    if text.len() < count {
        return 0;
    }
    let mut rest = n;
    for i in (0..count).rev() {
        text[i] = hex_digit(rest % base);
        rest /= base;
    }
    count
}

// The 24 bits, two's complement, of a count's number.
fn twos_24(c: u32) -> u32
    ensures { result ≡ twos24 (value c) }
{
    c.wrapping_sub(HALF) % FULL
}

// A position as P reports it: six bytes.
pub fn put_report(text: &mut [u8], c: u32) -> usize
    ensures { written result text.new ≡ wrote 6 (report c) text.old }
{
    put_last(text, 16, 6, twos_24(c))
}

// A port's byte as b reports it: two bytes.
pub fn put_byte(text: &mut [u8], b: u8) -> usize
    ensures { written result text.new ≡ wrote 2 (two_hex b) text.old }
{
    put_last(text, 16, 2, u32::from(b))
}

// The digits of `n` at the front of `text`; answers how many.
fn put_digits(text: &mut [u8], n: u32) -> usize
    requires { 10 ≤ length text.old }
    ensures { (result ≡ length (digits n)) × (text.new ≡ digits n ++ drop (length (digits n)) text.old) }
{
    if n < 10 {
        text[0] = b'0' + n as u8;
        return 1;
    }
    let k = put_digits(&mut *text, n / 10);
    text[k] = b'0' + (n % 10) as u8;
    k + 1
}

// A minus and the digits of `n` and one; answers how many bytes.
fn put_minus(text: &mut [u8], n: u32) -> usize
    requires { (11 ≤ length text.old) × (n < 4294967295) }
    ensures { (result ≡ length (shown (negsuc n))) × (text.new ≡ shown (negsuc n) ++ drop (length (shown (negsuc n))) text.old) }
{
    let k = put_digits(&mut text[1..], n + 1);
    text[0] = b'-';
    k + 1
}

// The number of a word in decimal: at most eleven bytes.
pub fn put_word(text: &mut [u8], w: u32) -> usize
    ensures { written result text.new ≡ wrote 11 (shown (signed w)) text.old }
{
    if text.len() < 11 {
        return 0;
    }
    if w <= MOST {
        return put_digits(text, w);
    }
    put_minus(text, u32::MAX - w)
}

// The number of a count in decimal: at most eleven bytes.
pub fn put_count(text: &mut [u8], c: u32) -> usize
    ensures { written result text.new ≡ wrote 11 (shown (value c)) text.old }
{
    if text.len() < 11 {
        return 0;
    }
    if HALF <= c {
        return put_digits(text, c - HALF);
    }
    put_minus(text, HALF - 1 - c)
}

// A record's place as four digits. Like `put_byte` no more than a call of `put_last`.
pub fn put_place(text: &mut [u8], p: u16) -> usize
    ensures { written result text.new ≡ wrote 4 (four_digits p) text.old }
{
    put_last(text, 10, 4, u32::from(p))
}
