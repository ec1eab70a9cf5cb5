// Standard input and output for a program that answers lines: the bytes that arrive, answers to standard output, and a word on standard error about
// whatever fails.
#![tactic(auto)]

mod arriving;
mod leaving;
mod reasons;
mod retries;
mod telling;
mod turns;

pub use arriving::Arrival;
pub use turns::until;

// A program's standard input and output, and its name, which stands before what it says on standard error.
#[derive(Clone, Copy)]
pub struct Console<'a> {
    pub rt: &'a HostRuntime,
    pub name: &'a [u8],
}
