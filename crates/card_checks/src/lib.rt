// Is the card slice well formed beside its record (document 02, 2026-04)? And who owns a machine among the members.
#![tactic(auto)]

mod buckets;
mod cards;
mod checked;
mod content;
mod digits;
mod machines;
mod marks;
mod members;
mod owners;
mod preds;

pub use checked::{both_long, checked_names};
pub use content::book_ok;
pub use marks::is_marked_besides;
pub use owners::{names_of, nearest, reach};
