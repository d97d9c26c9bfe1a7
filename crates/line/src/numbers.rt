// Numbers with commas between them, and behind a comma a space or none, read in one pass over their bytes.
ghost use Rattle.std.specs.Prelude.{◌≡◌, ◌≤◌, length, drop};
ghost use Rattle.line.specs.Numbers.{numbers_of};
ghost use Rattle.line.specs.Lines.{behind};
ghost use Rattle.line.specs.work.Reading.{reading, item_from, spaced, items};

// A number's word, and the byte behind the comma after it; none where it is its line's last.
#[derive(Clone, Copy)]
pub(crate) struct Item {
    pub word: u32,
    pub next: Option<usize>,
}

// The numbers of a line: how many, and the first eight of them as words; there may be more, so it is no length of the array.
#[derive(Clone, Copy)]
pub(crate) struct Items {
    pub count: usize,
    pub words: [u32; 8],
}

// 1 to 8 digits from byte `at` on, and the comma or the end behind them.
fn read_digits(s: &[u8], minus: bool, at: usize) -> Option<Item>
    ensures { result ≡ reading minus at 0 0 (drop at s.now) }
{
    let mut size = 0;
    for i in at..s.len() {
        let b = s[i];
        let digits = i - at;
        if b == b',' {
            if digits == 0 {
                return None;
            }
            return Some(Item {
                word: count::word_of(minus, size),
                next: Some(i + 1),
            });
        }
        if b < b'0' || b'9' < b || 8 <= digits {
            return None;
        }
        size = 10 * size + u32::from(b - b'0');
    }
    if s.len() <= at {
        return None;
    }
    Some(Item {
        word: count::word_of(minus, size),
        next: None,
    })
}

// An optional minus and 1 to 8 digits from byte `at` on.
fn read_number(s: &[u8], at: usize) -> Option<Item>
    ensures { result ≡ item_from at (drop at s.now) }
{
    if s.len() <= at {
        return None;
    }
    if s[at] == b'-' {
        return read_digits(s, true, at + 1);
    }
    read_digits(s, false, at)
}

// One number or more, from byte `start` to the end. A `loop`: each number tells where the next one begins, and to split at the commas first
// would read each byte twice.
pub(crate) fn read_numbers(s: &[u8], start: usize) -> Option<Items>
    requires { start ≤ length s.now }
    ensures { result ≡ items (numbers_of (drop start s.now)) }
{
    let mut words = [0u32; 8];
    let mut n = 0;
    let mut at = start;
    loop {
        let item = read_number(s, at)?;
        if n < 8 {
            words[n] = item.word;
        }
        n += 1;
        match item.next {
            Some(next) => at = past_space(s, next),
            None => return Some(Items { count: n, words }),
        }
    }
}

// Where a number begins: past one space, if one stands at byte `at`.
fn past_space(s: &[u8], at: usize) -> usize
    ensures { result ≡ spaced at (drop at s.now) }
{
    if at < s.len() && s[at] == b' ' {
        at + 1
    } else {
        at
    }
}

// What stands behind a letter or a code: nothing, or at most one space and then numbers.
pub(crate) fn read_behind(s: &[u8], at: usize) -> Option<Items>
    requires { at ≤ length s.now }
    ensures { result ≡ items (behind (drop at s.now)) }
{
    let from = past_space(s, at);
    if s.len() == at {
        return Some(Items {
            count: 0,
            words: [0u32; 8],
        });
    }
    read_numbers(s, from)
}
