// The sheet: distances in mm and speeds into steps (01, "The sheet").
#![tactic(auto)]

ghost use Rattle.std.specs.Prelude.{◌≡◌, ◌^◌};
ghost use Rattle.std.specs.Float.{binary64};
ghost use Rattle.std.specs.Float.Ieee.{of_bits};
ghost use Rattle.sheet.specs.Sheet.{axis_right, distance_right, rate_right, between, distance_float, speed_float, half_up, in_range, whole_steps, whole_speed, distance_steps, speed_steps, distance_of, speed_of};
ghost use Rattle.sheet.specs.Refusal.{refusal_paper, converted};
ghost use Rattle.sheet.specs.work.Work.{Room, capped, capped_whole};

mod chains;

pub use chains::chain;

// What an axis is, each a 64-bit float.
#[derive(Clone, Copy)]
pub struct Axis {
    pub lead: f64,
    pub steps: f64,
    pub gear: f64,
}

// A speed on the sheet: mm per second, mm per minute, or whole steps per second.
#[derive(Clone, Copy)]
pub enum Rate {
    PerSecond(f64),
    PerMinute(f64),
    Steps(i64),
}

// Why there is no value: an output of another length than the chain, or a chain of more than 1,000 distances; an axis that is not right;
// a distance, speed or sum that is not right; a whole number outside its range.
#[derive(Clone, Copy, PartialEq, Eq)]
pub enum Refusal {
    Length,
    Axis,
    Value,
    Range,
}

impl Refusal {
    // The number by which it is told, which is never 0. A method, not a `From`, so that it is said which number.
    pub fn number(self) -> u16
        ensures { result ≡ (refusal_paper self).number }
    {
        match self {
            Refusal::Length => 105,
            Refusal::Axis => 201,
            Refusal::Value => 202,
            Refusal::Range => 203,
        }
    }
}

// A distance in mm as steps.
#[tactic(auto, unfolding(crate::specs::Sheet::distance_of))]
pub fn distance(axis: Axis, mm: f64) -> Result<i32, Refusal>
    ensures { converted result ≡ distance_of axis mm }
{
    if !axis_right(axis) {
        return Err(Refusal::Axis);
    }
    if !distance_right(mm) {
        return Err(Refusal::Value);
    }
    distance_steps(axis, mm)
}

// A speed as steps per second. Only the order of the tests is that of `distance`: one function over both would have to be given all three.
#[tactic(auto, unfolding(crate::specs::Sheet::speed_of))]
pub fn speed(axis: Axis, rate: Rate) -> Result<i32, Refusal>
    ensures { converted result ≡ speed_of axis rate }
{
    if !axis_right(axis) {
        return Err(Refusal::Axis);
    }
    if !rate_right(rate) {
        return Err(Refusal::Value);
    }
    speed_steps(axis, rate)
}

// The test of the axis, 201.
#[tactic(auto, using(crate::proofs::Numbers::thousandth, crate::proofs::Numbers::million), unfolding(crate::specs::Sheet::axis_right))]
pub(crate) fn axis_right(axis: Axis) -> bool
    ensures { result ≡ axis_right axis }
{
    let lead = within(0.001, axis.lead, 1000000.0);
    let steps = within(0.001, axis.steps, 1000000.0);
    let gear = within(0.001, axis.gear, 1000000.0);
    lead & steps & gear
}

// The test of a distance, 202.
#[tactic(auto, using(crate::proofs::Numbers::minus_million, crate::proofs::Numbers::million), unfolding(crate::specs::Sheet::distance_right))]
fn distance_right(mm: f64) -> bool
    ensures { result ≡ distance_right mm }
{
    within(-1000000.0, mm, 1000000.0)
}

// The test of a speed, 202.
#[tactic(auto, using(crate::proofs::Numbers::nought, crate::proofs::Numbers::million), unfolding(crate::specs::Sheet::rate_right))]
fn rate_right(rate: Rate) -> bool
    ensures { result ≡ rate_right rate }
{
    match rate {
        Rate::PerSecond(v) | Rate::PerMinute(v) => within(0.0, v, 1000000.0),
        Rate::Steps(n) => (0 <= n) & (n <= 1000000),
    }
}

// From lo to hi, which not-a-number never is.
fn within(lo: f64, x: f64, hi: f64) -> bool
    ensures { result ≡ between lo x hi }
{
    (lo <= x) & (x <= hi)
}

// The formula of a distance, rounded to a whole number of steps of 24 bits, else 203.
#[tactic(auto, using(crate::proofs::Range::steps_by, crate::proofs::Range::capped_back), unfolding(crate::specs::Sheet::distance_steps))]
pub(crate) fn distance_steps(axis: Axis, mm: f64) -> Result<i32, Refusal>
    ensures { converted result ≡ distance_steps axis mm }
{
    let steps = mm / axis.lead * axis.steps * axis.gear;
    whole_steps(nearest(steps))
}

// The formula of a speed, rounded to whole steps per second from 30 to 10,000, else 203.
#[tactic(auto, using(crate::proofs::Range::speed_by, crate::proofs::Range::capped_back, crate::proofs::Numbers::sixty), unfolding(crate::specs::Sheet::speed_steps))]
fn speed_steps(axis: Axis, rate: Rate) -> Result<i32, Refusal>
    ensures { converted result ≡ speed_steps axis rate }
{
    match rate {
        Rate::PerSecond(v) => whole_speed(nearest(speed_float(axis, v))),
        Rate::PerMinute(v) => whole_speed(nearest(speed_float(axis, v) / 60.0)),
        Rate::Steps(n) => whole_speed(n),
    }
}

// Steps per second from mm per second, each operation rounded once.
fn speed_float(axis: Axis, v: f64) -> f64
    ensures { result ≡ speed_float axis v }
{
    v * axis.steps * axis.gear / axis.lead
}

// The range of a distance.
#[tactic(auto, unfolding(crate::specs::Sheet::whole_steps))]
pub(crate) fn whole_steps(n: i64) -> Result<i32, Refusal>
    ensures { converted result ≡ whole_steps n }
{
    in_range(-8388608, n, 8388607)
}

// The range of a speed.
#[tactic(auto, unfolding(crate::specs::Sheet::whole_speed))]
fn whole_speed(n: i64) -> Result<i32, Refusal>
    ensures { converted result ≡ whole_speed n }
{
    in_range(30, n, 10000)
}

fn in_range(low: i32, n: i64, high: i32) -> Result<i32, Refusal>
    ensures { converted result ≡ in_range low n high }
{
    if (i64::from(low) <= n) & (n <= i64::from(high)) {
        Ok(n as i32)
    } else {
        Err(Refusal::Range)
    }
}

// The whole number nearest to a float, halves away from zero. One of size 2^24 or more, which is
// outside either range, is cut to that size, and so are an infinity and not-a-number.
fn nearest(x: f64) -> i64
    ensures { result ≡ capped_whole x }
{
    if x.is_nan() {
        return 16777216;
    }
    let bits = x.to_bits();
    let size = nearest_size(bits);
    if bits < 0x8000_0000_0000_0000 {
        return size as i64;
    }
    -(size as i64)
}

// The size of the nearest whole number, from the bits: below the exponent field 1022 a float is
// less than a half, and from 1047 on it is 2^24 or more.
#[tactic(auto, using(crate::proofs::Pattern::digits_short, crate::proofs::Pattern::near_small, crate::proofs::Pattern::near_middle, crate::proofs::Pattern::near_large))]
fn nearest_size(bits: u64) -> u64
    ensures { result ≡ capped (of_bits binary64 bits) }
{
    let field = bits / 0x10_0000_0000_0000 % 2048;
    let digits = bits % 0x10_0000_0000_0000 + 0x10_0000_0000_0000;
    if field < 1022 {
        return 0;
    }
    if field < 1047 {
        return halves_up(digits, 1075 - field);
    }
    16777216
}

// The whole number nearest to digits / 2^places, a half going up.
#[tactic(auto, using(crate::proofs::Halves::unit_is, crate::proofs::Halves::down, crate::proofs::Halves::up, crate::proofs::Halves::one_more))]
fn halves_up(digits: u64, places: u64) -> u64
    requires { Room digits places }
    ensures { result ≡ half_up digits (2 ^ places) }
{
    let unit = 1u64 << places;
    let whole = digits / unit;
    let rest = digits % unit;
    if rest < unit / 2 {
        return whole;
    }
    whole + 1
}
