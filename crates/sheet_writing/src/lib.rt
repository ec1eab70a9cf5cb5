// The office sheet written (document 02, 2026-03): the room is counted before the first byte is written.
#![tactic(auto)]

mod decimals;
mod identifiers;
mod names;
mod rows;
mod writing;

pub use writing::{write_sheet, write_sheet_bytes};
