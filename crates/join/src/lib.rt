// Joining two programs: the second's bytes behind the first's, in the first's store, with its table filled.
#![tactic(auto)]

mod joining;

pub use joining::join;
