// The calls that only read the record (document 01, 'Reading the ring'): the owner query, the hub row and the roll call. Each takes
// every slice and every number; what is wrong is refused.
//
// That the words are a record stands in the clause `Valid w`, as in steps: a struct for those that only read would be a second form of one fact.
#![tactic(auto)]

mod owners;
mod rolls;
mod rows;

pub use owners::owner;
pub use rolls::{around, roll_call};
pub use rows::hub_row;
