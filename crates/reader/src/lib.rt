// The numbers of a text, for the programs that run vectors: decimal ones one behind the other, whatever stands between them, and
// hexadecimal ones at a place. And the fields of a line, for the program that answers questions.
#![tactic(auto)]

ghost use Rattle.std.specs.Prelude.{◌≡◌, ◌≤◌, length, drop};
ghost use Rattle.reader.specs.Reader.{with_digit, number_at, words_at, behind_words, hex_value, hex_at};

mod fields;

pub use fields::{field_end, float, magnitude, read_bits, read_bytes, read_whole};

// A number of the text as a word of 32 bits, and where the text goes on.
#[derive(Clone, Copy)]
pub struct Number {
    pub word: u32,
    pub at: usize,
}

// A size with one digit more, to nine digits; any other byte leaves it.
fn with_digit(size: u32, b: u8) -> u32
    ensures { result ≡ with_digit size b }
{
    if size < 100_000_000 && b.is_ascii_digit() {
        size * 10 + u32::from(b - b'0')
    } else {
        size
    }
}

// The next number from a place of the text on.
pub fn next_number(text: &[u8], from: usize) -> Number
    ensures { result ≡ number_at text.now from }
{
    let mut size = 0;
    let mut minus = false;
    let mut begun = false;
    for at in from..text.len() {
        let b = text[at];
        let digit = b.is_ascii_digit();
        if begun && !digit {
            return Number {
                word: count::word_of(minus, size),
                at: at + 1,
            };
        }
        minus |= b == b'-';
        begun |= digit;
        size = with_digit(size, b);
    }
    Number {
        word: count::word_of(minus, size),
        at: text.len().max(from),
    }
}

// As many numbers as `words` has room for, from a place of the text on; answers where the text goes on.
pub fn next_numbers(text: &[u8], from: usize, words: &mut [u32]) -> usize
    ensures { (result ≡ behind_words (length words.old) text.now from) × (words.new ≡ words_at (length words.old) text.now from) }
{
    let mut at = from;
    for word in words.iter_mut() {
        let t = next_number(text, at);
        *word = t.word;
        at = t.at;
    }
    at
}

// The value of a hexadecimal digit; any other byte counts as 0.
pub(crate) fn hex_value(b: u8) -> u64
    ensures { (result ≡ hex_value b) × (result ≤ 15) }
{
    match b {
        b'0'..=b'9' => u64::from(b - b'0'),
        b'a'..=b'f' => u64::from(b - b'a') + 10,
        _ => 0,
    }
}

// What stands from a place of the text on; nothing behind its end. It is one step, where `skip` would take one for each byte before it.
pub(crate) fn behind(text: &[u8], from: usize) -> &[u8]
    ensures { result.now ≡ drop from text.now }
{
    &text[from.min(text.len())..]
}

// The number of so many hexadecimal digits from a place of the text on, or of those that stand there; the last sixteen count.
pub fn hex_number(text: &[u8], from: usize, digits: usize) -> u64
    ensures { result ≡ hex_at text.now from digits }
{
    behind(text, from).iter().take(digits).fold(0, |n, b| {
        n % 0x1000_0000_0000_0000 * 16 + hex_value(*b)
    })
}
