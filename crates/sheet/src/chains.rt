// A chain of distances, summed in thousandths of a mm, so that nothing is lost from one distance to the next (02, §2).
ghost use Rattle.std.specs.Prelude.{◌≡◌, true, pos, ◌+ℤ◌, length};
ghost use Rattle.sheet.specs.Refusal.{number_of, converted};
ghost use Rattle.sheet.specs.Chain.{sum_right, result_of, chained, chain_of};
ghost use Rattle.sheet.specs.work.Links.{link_of, made_of, result_after, fault_from, steps_from};

use super::{Axis, Refusal, axis_right, distance_steps, whole_steps};

// The result at a sum, and how far it is from the result before.
#[derive(Clone, Copy)]
struct Link {
    pub result: i32,
    pub step: i32,
}

// Distances in thousandths of a mm as relative distances in steps, or the refusal, which leaves the output as found.
pub fn chain(axis: Axis, thousandths: &[i64], steps: &mut [i32]) -> Result<(), Refusal>
    ensures { chained (number_of result) steps.new ≡ chain_of axis thousandths.now steps.old }
{
    let n = thousandths.len();
    if 1000 < n || steps.len() != n {
        return Err(Refusal::Length);
    }
    if !axis_right(axis) {
        return Err(Refusal::Axis);
    }
    test(axis, thousandths)?;
    deliver(axis, thousandths, steps)
}

// 202 if a sum is not right, else 203 if a result or a difference is outside 24 bits.
fn test(axis: Axis, thousandths: &[i64]) -> Result<(), Refusal>
    ensures { number_of result ≡ fault_from axis (pos 0) (pos 0) 0 thousandths.now }
{
    let mut sum = 0;
    let mut last = Ok(0);
    for &t in thousandths {
        if !sum_right(sum, t) {
            return Err(Refusal::Value);
        }
        sum += t;
        last = next(axis, last, sum);
    }
    last?;
    Ok(())
}

// The result at a sum, or what was refused already. That a sum is right is asked: a type for it would be made anew for each distance.
fn next(axis: Axis, last: Result<i32, Refusal>, sum: i64) -> Result<i32, Refusal>
    requires { sum_right sum ≡ true }
    ensures { result ≡ result_after axis last sum }
{
    let link = link_of(axis, last?, sum)?;
    Ok(link.result)
}

// The differences of a chain that is refused nothing, each written in its place.
fn deliver(axis: Axis, thousandths: &[i64], steps: &mut [i32]) -> Result<(), Refusal>
    requires long { length steps.old ≡ length thousandths.now }
    requires sound { fault_from axis (pos 0) (pos 0) 0 thousandths.now ≡ 0 }
    ensures done { number_of result ≡ 0 }
    ensures steps { steps.new ≡ steps_from axis (pos 0) (pos 0) thousandths.now }
{
    let mut sum = 0;
    let mut before = 0;
    for (i, &t) in thousandths.iter().enumerate() {
        sum += t;
        let link = link_of(axis, before, sum)?;
        before = link.result;
        steps[i] = link.step;
    }
    Ok(())
}

// Whether the sum with one distance more is right. The sum is not made here, since it need not fit.
#[tactic(auto, using(crate::proofs::Sums::low_fits, crate::proofs::Sums::high_fits))]
fn sum_right(sum: i64, t: i64) -> bool
    requires { sum_right sum ≡ true }
    ensures { result ≡ sum_right (sum +ℤ t) }
{
    (-1000000000 - sum <= t) & (t <= 1000000000 - sum)
}

fn link_of(axis: Axis, before: i32, sum: i64) -> Result<Link, Refusal>
    requires { sum_right sum ≡ true }
    ensures { result ≡ made_of (link_of axis before sum) }
{
    let result = result_of(axis, sum)?;
    let step = whole_steps(i64::from(result) - i64::from(before))?;
    Ok(Link { result, step })
}

// A sum of thousandths divided by 1,000, and converted.
#[tactic(auto, using(crate::proofs::Numbers::thousand, crate::proofs::Sums::sum_exact), unfolding(crate::specs::Chain::result_of, crate::specs::Chain::in_mm))]
fn result_of(axis: Axis, sum: i64) -> Result<i32, Refusal>
    requires { sum_right sum ≡ true }
    ensures { converted result ≡ result_of axis sum }
{
    distance_steps(axis, sum as f64 / 1000.0)
}
