// The values of the ring protocol. Their meaning is in specs/, in the order of document 01.
#![tactic(auto)]

pub mod answer_kinds;
pub mod form;
pub mod kinds;
pub mod refusal;
pub mod states;
mod words;

pub use refusal::Refusal;

// A node of the ring (document 01: a hub) has a number below the node count, and this row of seven
// words (document 01: hub row).
#[derive(Clone, Copy)]
pub struct Row {
    pub identifier: u32,
    pub state: u32,
    pub lock: u32,
    pub flag: u32,
    pub pred: u32,
    pub succ: u32,
    pub oldpred: u32,
}

// A message in flight, in the order of its six words.
#[derive(Clone, Copy)]
pub struct Message {
    pub kind: u32,
    pub from: u32,
    pub to: u32,
    pub a: u32,
    pub b: u32,
    pub hops: u32,
}

// A price card (document 02, 2026-04), in the order of its four words.
#[derive(Clone, Copy)]
pub struct Card {
    pub machine: u32,
    pub revision: u32,
    pub price: u32,
    pub hub: u32,
}

// What an accepted step answers.
#[derive(Clone, Copy)]
pub enum Answer {
    Quiet,
    Found {
        hub: u32,
        number: u32,
        ticket: u32,
        hops: u32,
    },
    Entered(u32),
    Gone(u32),
    JoinTurnedAway(u32),
    LeaveTurnedAway(u32),
    Joined(u32),
    Left(u32),
}

// Where a key (document 01: machine number) goes from a node: the node owns it, or sends it on. (No Option: None would read as no way.)
#[derive(Clone, Copy)]
pub enum Route {
    Own,
    To(u32),
}

// What a command or a delivered message does at one node, where it is not refused: the node's new row and an answer; or these and one
// message sent.
#[derive(Clone, Copy)]
pub enum Decision {
    Reply(Row, Answer),
    Send(Row, Message, Answer),
}

// How many steps gave each kind of answer, and how many were refused.
#[derive(Clone, Copy, Default)]
pub struct Tally {
    pub quiet: u64,
    pub found: u64,
    pub entered: u64,
    pub gone: u64,
    pub join_turned_away: u64,
    pub leave_turned_away: u64,
    pub joined: u64,
    pub left: u64,
    pub refused: u64,
}

// What a line of `ringrun` that reads says: a ring founded with so many identifiers, whose digits
// follow from byte 2 on; or a command.
#[derive(Clone, Copy)]
pub enum Frame {
    Founding(usize),
    Command { operation: u32, x: u32, y: u32 },
}
