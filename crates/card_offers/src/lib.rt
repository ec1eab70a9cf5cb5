// A card offered to a ring (document 02, 2026-04).
#![tactic(auto)]

mod offers;

pub use offers::offer;
