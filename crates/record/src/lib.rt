// The words of a record: reading rows and messages, and the edits of which every step is made. Where rows and messages stand is in protocol::form.
#![tactic(auto)]

mod messages;
mod rows;

pub use messages::{find, message_at, push, remove};
pub use rows::{identifier_of, outside_row, put_row, row_at, row_of};
