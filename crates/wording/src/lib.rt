// What the ring says, in words: answers, refusals, rows, rolls, messages and counts as text (docs/INSPECT.md). Each has a type of its own whose
// Display writes it. The text is tested beside the model's, and not proved.
#![tactic(auto)]

mod answers;
mod messages;
mod names;
mod refusals;
mod rows;

pub use answers::{Answered, Counted, Given, Numbered};
pub use messages::{Sent, Waiting};
pub use refusals::Refused;
pub use rows::{HubRow, Places, UNWRITTEN};
