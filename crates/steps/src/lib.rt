// The step: a command is asked its questions, decides on values, and only then writes (document 01, 'Commands and their messages').
//
// That the words are a record (`Valid`) stands in the clauses and not in a struct around the lent words: such a struct owes the fact after each
// single write through it, and between the writes of a step it does not hold (tried: the check asks for it at the first of two writes).
#![tactic(auto)]

mod apply;
mod asks;
mod commands;
mod perform;

pub use asks::ask;
pub use perform::{run, step};
