// The step with a tally: how many steps gave each kind of answer, and how many were refused (document 01, 'Reading the ring').
#![tactic(auto)]

mod counts;
mod lending;
mod perform;

pub use counts::{changed_at, counted, raised_at};
pub use lending::{Tallied, lend};
pub use perform::step;
