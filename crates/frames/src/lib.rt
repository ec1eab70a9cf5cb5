// One line of `ringrun`: the frame that it is, the call that the frame makes on the record, and the line that is printed for it.
#![tactic(auto)]

mod calls;
mod digits;
mod printing;
mod reading;

pub use calls::{answer_line, fresh_ring};
pub use printing::{LINE, put, refusal_line};
pub use reading::decode;
