// The office sheet read (document 02, 2026-03). Reading goes over the text twice: judging.rt says whether it is a sheet and what it needs, and only
// then filling.rt writes.
#![tactic(auto)]

mod bytes;
mod copying;
mod filling;
mod identifiers;
mod judging;
mod names;
mod numbers;
mod runs;

pub use filling::{read_sheet, read_sheet_bytes};

// A name with its comma, judged or copied: where the number behind it begins, and how many bytes it takes in the names, its zero byte included.
#[derive(Clone, Copy)]
pub struct Name {
    pub end: usize,
    pub bytes: usize,
}

// Digits one after the other: where they end, and the identifier that they make; none where the number is too large for one.
#[derive(Clone, Copy)]
pub struct Run {
    pub end: usize,
    pub value: Option<u32>,
}

// A row: where the next one begins, and what name and number are as above.
#[derive(Clone, Copy)]
pub struct Row {
    pub end: usize,
    pub bytes: usize,
    pub value: Option<u32>,
}
