// A line of the script: its fields, parted by one space each, and the command that they are.
use record::Held;

// A command with its numbers in range. What `H` sets is for the board to say.
#[derive(Clone, Copy)]
pub(crate) enum Command<'a> {
    Receive(u8),
    Clock(u32),
    End,
    Fill,
    Set(&'a [u8], i64),
    Ports([u8; 4]),
    Hold(Held),
    List,
    LendStore(usize),
    Mark(u32),
    Run(u32),
    LendReply(usize),
    State,
    Enter(usize, u16),
    LendTable(usize),
    Look(usize),
    Poke(usize, u8),
}

// A whole number of one to ten digits, with a minus or without.
fn whole(field: &[u8]) -> Option<i64> {
    let digits = field.strip_prefix(b"-").unwrap_or(field);
    if digits.len() > 10 || !digits.iter().all(|b| b.is_ascii_digit()) {
        return None;
    }
    str::from_utf8(field).ok()?.parse().ok()
}

// A whole number that the type has.
fn number<T: TryFrom<i64>>(field: &[u8]) -> Option<T>
where
    T::Error: Drop,
{
    T::try_from(whole(field)?).ok()
}

// A number from 0 to the largest that is asked for.
fn at_most(most: usize, field: &[u8]) -> Option<usize> {
    number(field).filter(|n| *n <= most)
}

impl<'a> Command<'a> {
    // The command of these fields, if they are as many as it asks, and in range.
    pub(crate) fn of(fields: &[&'a [u8]]) -> Option<Command<'a>> {
        Some(match fields {
            [b"B", n] => Command::Receive(number(n)?),
            [b"C", n] => Command::Clock(number(n)?),
            [b"E"] => Command::End,
            [b"F"] => Command::Fill,
            [b"H", name, n] => Command::Set(name, whole(n)?),
            [b"I", a, b, c, d] => Command::Ports([number(a)?, number(b)?, number(c)?, number(d)?]),
            [b"K", used, records, axes] => Command::Hold(Held {
                used: number(used)?,
                records: number(records)?,
                axes: number(axes)?,
            }),
            [b"L"] => Command::List,
            [b"M", n] => Command::LendStore(at_most(65536, n)?),
            [b"N", n] => Command::Mark(number(n)?),
            [b"Q", n] => Command::Run(number(n)?),
            [b"R", n] => Command::LendReply(at_most(65536, n)?),
            [b"S"] => Command::State,
            [b"T", place, start] => Command::Enter(at_most(999, place)?, number(start)?),
            [b"U", n] => Command::LendTable(at_most(2000, n)?),
            [b"V", place] => Command::Look(at_most(999, place)?),
            [b"W", at, b] => Command::Poke(at_most(16383, at)?, number(b)?),
            _ => return None,
        })
    }
}
