// Question 2: is the record well formed? It is asked on every call, so its loops have no early exit: each puts its tests together by `&`, or
// merges by `|` words that must be 0, which the compiler vectorises, and looks at the whole once a loop. A number that is 0 where nothing is wrong
// has `bad` in its name.
#![tactic(auto)]

mod content;
mod differ;
mod message;
mod opening;
mod row;
mod whole;
mod zeros;

pub use differ::all_differ;
pub use opening::questions;
pub use whole::well_formed;
pub use zeros::all_zero;
