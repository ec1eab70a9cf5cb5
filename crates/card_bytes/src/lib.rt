// The calls with cards on lent bytes (document 02, 2026-04), for `ring_c`: the first words of both slices are loaded, and what the call left is
// written back.
#![tactic(auto)]

mod calls;

pub use calls::{fresh, offer, step};
