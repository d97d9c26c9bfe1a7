// The fields of a question, one behind the other, with a space in front of each.
ghost use Rattle.std.specs.Prelude.{◌≤◌, length, IfOk};
ghost use Rattle.std.specs.Iterator.{at_most};

use super::Fault;

// What is left of a line: nothing, or a space and the fields behind it.
#[derive(Drop)]
pub(crate) struct Fields<'a> {
    rest: &'a [u8],
}

// A text up to its first space, and from there on.
pub(crate) fn cut(text: &[u8]) -> (&[u8], &[u8])
    ensures { length result.1.now ≤ length text.now }
{
    text.split_at(reader::field_end(text, 0))
}

impl<'a> Iterator for Fields<'a> {
    type Item = &'a [u8];

    ghost remaining = { λ s. at_most (length s.rest.now) };

    fn next(&mut self) -> Option<&'a [u8]> {
        let (_, behind) = self.rest.split_first()?;
        let (field, rest) = cut(behind);
        self.rest = rest;
        Some(field)
    }
}

impl<'a> Fields<'a> {
    // Those of a line behind its first word.
    pub(crate) fn new(rest: &'a [u8]) -> Fields<'a> {
        Fields { rest }
    }

    // The next field as what it is read as.
    fn read<T, Read: FnOnce(&[u8]) -> Option<T>>(&mut self, read: Read) -> Result<T, Fault>
        requires { Read.IsAlwaysCallable read }
    {
        let field = self.next().ok_or(Fault::Unread)?;
        read(field).ok_or(Fault::Unread)
    }

    // The next field as the bits of a float.
    pub(crate) fn bits(&mut self) -> Result<u64, Fault> {
        self.read(|field| reader::read_bits(field))
    }

    // The next field as a whole number.
    pub(crate) fn whole(&mut self) -> Result<i64, Fault> {
        self.read(|field| reader::read_whole(field))
    }

    // The next field as a number of a smaller type.
    pub(crate) fn number<T: TryFrom<i64>>(&mut self) -> Result<T, Fault>
    where
        T::Error: Drop,
    {
        T::try_from(self.whole()?).map_err(|_| Fault::Unread)
    }

    // The next field as a number from 0 to `most`.
    pub(crate) fn up_to(&mut self, most: usize) -> Result<usize, Fault>
        ensures { IfOk result (λ n. n ≤ most) }
    {
        let n = self.number()?;
        if n <= most { Ok(n) } else { Err(Fault::Unread) }
    }

    // The next field as bytes, which then stand at the front of those lent.
    pub(crate) fn bytes(&mut self, bytes: &mut [u8]) -> Result<(), Fault> {
        match self.next() {
            Some(field) if reader::read_bytes(field, bytes) => Ok(()),
            _ => Err(Fault::Unread),
        }
    }
}
