// A route's questions in one call (document 02, 2026-06): a batch of lookups at one node. The record is tested once, however many numbers
// are asked: a question leaves a well-formed record well formed.
#![tactic(auto)]

mod asks;
mod perform;

pub use asks::ask_each;
pub use perform::ask;
