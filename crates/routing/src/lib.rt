// Where a key goes from a node, and the questions that go there (document 01, 'Routing at hub t' and kind 1). Every function is pure and works
// on values; its contract is an equation with the meaning in `protocol`.
#![tactic(auto)]

mod lookups;
mod messages;
mod rows;
mod rules;
mod ways;

pub use lookups::lookup;
pub use messages::{note, question};
pub use rows::{in_ring, responsible};
pub use rules::{relinked, required, unlocked};
pub use ways::{covers, onward, route};
