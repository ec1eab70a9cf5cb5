// The names of document 01's numbers, as they are printed. (No other number comes here: what is shown is of records that passed question 2.)
use protocol::form::NONE;
use protocol::{kinds, states};
use std::fmt;

pub fn state_name(state: u32) -> &'static str {
    match state {
        states::OUTSIDE => "outside",
        states::JOINING => "joining",
        states::INSIDE => "inside",
        states::WANTING_TO_LEAVE => "wanting to leave",
        states::LEAVING => "leaving",
        _ => "",
    }
}

pub fn kind_name(kind: u32) -> &'static str {
    match kind {
        kinds::LOOKUP => "LOOKUP",
        kinds::JOIN => "JOIN",
        kinds::JOINRETRY => "JOINRETRY",
        kinds::JOINPOINT => "JOINPOINT",
        kinds::NEWSUCC => "NEWSUCC",
        kinds::NEWSUCCACK => "NEWSUCCACK",
        kinds::JOINDONE => "JOINDONE",
        kinds::LEAVEREQ => "LEAVEREQ",
        kinds::LEAVERETRY => "LEAVERETRY",
        kinds::LEAVEGRANT => "LEAVEGRANT",
        kinds::LEAVEPOINT => "LEAVEPOINT",
        kinds::UPDATESUCC => "UPDATESUCC",
        kinds::STOPFORWARD => "STOPFORWARD",
        kinds::LEAVEDONE => "LEAVEDONE",
        _ => "",
    }
}

// A pointer is a hub number or none.
#[derive(Clone, Copy)]
pub struct Pointer(pub u32);

impl fmt::Display for Pointer {
    fn fmt<W: fmt::Write>(&self, f: &mut fmt::Formatter<W>) -> fmt::Result {
        match self.0 {
            NONE => write!(f, "none"),
            hub => write!(f, "{hub}"),
        }
    }
}
