// `join USED RECORDS AXES HEX USED RECORDS AXES HEX`: the second program put behind the first (02, §4 and §6). Both stores have 16,384 bytes,
// and the first's table has 1,000 entries. `lend FIRST SECOND TABLE` and the same fields: as many bytes and entries as it says. Every entry
// is lent as 65,535, where no record can start.
use super::fields::Fields;
use super::{Fault, show};
use record::Held;
use std::alloc::Global;

// The next program; its bytes stand in the store afterwards.
fn read_part(fields: &mut Fields, store: &mut [u8]) -> Result<Held, Fault> {
    let held = Held {
        used: fields.number()?,
        records: fields.number()?,
        axes: fields.number()?,
    };
    fields.bytes(store)?;
    Ok(held)
}

// The answer to the question with these two programs, with so many bytes lent for the first, so many entries and so many bytes for the second.
fn ask(
    alloc: Global,
    mut fields: Fields,
    long: usize,
    many: usize,
    far: usize,
) -> Result<String, Fault> {
    let mut store = vec![in alloc; 0u8; long]?;
    let mut table = vec![in alloc; u16::MAX; many]?;
    let mut other = vec![in alloc; 0u8; far]?;
    let first = read_part(&mut fields, &mut store)?;
    let second = read_part(&mut fields, &mut other)?;
    if fields.next().is_some() {
        return Err(Fault::Unread);
    }
    let joined = match join::join(first, &mut store, &mut table, second, &other) {
        Ok(held) => held,
        Err(refusal) => return Ok(format!(in alloc; "{refusal}")?),
    };
    // The bytes in use, and the entries up to the last that is not 65,535.
    store.truncate(usize::from(joined.used));
    let n = table
        .iter()
        .rev()
        .skip_while(|entry| **entry == u16::MAX)
        .count();
    table.truncate(n);
    Ok(show::joined(alloc, joined, &store, &table)?)
}

// The answer to the question `join` with these fields.
pub(crate) fn answer(alloc: Global, fields: Fields) -> Result<String, Fault> {
    ask(alloc, fields, 16384, 1000, 16384)
}

// The answer to the question `lend` with these fields.
pub(crate) fn lend(alloc: Global, mut fields: Fields) -> Result<String, Fault> {
    let first = fields.up_to(16385)?;
    let second = fields.up_to(16385)?;
    let entries = fields.up_to(1001)?;
    ask(alloc, fields, first, entries, second)
}
