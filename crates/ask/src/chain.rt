// `chain LEAD STEPS GEAR n t1 .. tm`: a chain of distances (02, §2) with an output of n numbers.
use super::fields::Fields;
use super::{Fault, show};
use sheet::Axis;
use std::alloc::{AllocError, Global};

// One more than a chain may have: so long an output stands for any longer one, and is refused 105.
const MANY: usize = 1001;

fn read_axis(fields: &mut Fields) -> Result<Axis, Fault> {
    let lead = reader::float(fields.bits()?);
    let steps = reader::float(fields.bits()?);
    let gear = reader::float(fields.bits()?);
    Ok(Axis { lead, steps, gear })
}

// All fields that are left.
fn read_distances(alloc: Global, fields: Fields) -> Result<Vec<i64>, Fault> {
    let mut distances = Vec::new(alloc);
    for field in fields {
        let t = reader::read_whole(field).ok_or(Fault::Unread)?;
        distances.push(t).map_err(AllocError::from)?;
    }
    Ok(distances)
}

// The answer to the question with these fields.
pub(crate) fn answer(alloc: Global, mut fields: Fields) -> Result<String, Fault> {
    let axis = read_axis(&mut fields)?;
    let wanted: usize = fields.number()?;
    let distances = read_distances(alloc, fields)?;
    let mut steps = vec![in alloc; 0i32; wanted.min(MANY)]?;
    if let Err(refusal) = sheet::chain(axis, &distances, &mut steps) {
        let number = refusal.number();
        return Ok(format!(in alloc; "{number}")?);
    }
    Ok(show::chained(alloc, &steps)?)
}
