// The calls that lend price cards beside a ring record (document 02, 2026-04): a new slice with its ring, and a step that moves the cards. An offer
// is in `card_offers`, the test of a slice in `card_checks`.
#![tactic(auto)]

mod moves;
mod new_book;
mod perform;

pub use new_book::fresh;
pub use perform::step;
