// The states of a node, by document 01's numbers ('Ring record'). specs/Names.antt has the same names.
// No enum: a row is seven words that callers in C lend, and until the record was found well formed any of them may stand there. (An enum in `Row` would
// ask of whoever makes one that its state is known.)
pub const OUTSIDE: u32 = 0;

pub const JOINING: u32 = 1;

pub const INSIDE: u32 = 2;

pub const WANTING_TO_LEAVE: u32 = 3;

pub const LEAVING: u32 = 4;
