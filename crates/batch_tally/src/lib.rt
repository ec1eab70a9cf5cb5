// A route's questions with a tally (document 02, 2026-06): each question counts as a step does, and a call that is refused counts nothing.
#![tactic(auto)]

mod counts;
mod perform;

pub use perform::ask;
