// What moves is a kind: a straight movement or an arc, with one plan, one next pulse and one test of 103.
#![tactic(auto)]

mod plans;
mod pulse;

use circle::Arc;
use motion::Move;
pub use plans::{circle, plan};

// Each kind carries what moves, so no `Option`.
#[derive(Clone, Copy)]
pub enum Travel {
    Straight(Move),
    Round(Arc),
}
