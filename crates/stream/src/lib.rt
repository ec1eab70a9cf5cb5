// The bytes of an input to the bytes that are printed for it (document 01, '`ringrun`'), in whatever pieces they arrive.
#![tactic(auto)]

mod answering;
mod taking;

pub use taking::{KEPT, finish, take_bytes};
