// The kinds of an answer, by document 01's numbers ('Answers'). specs/Names.antt has the same names.
// No enum of their own: an answer is one (`Answer`), and these are the words by which C and a line of `ringrun` read it, the places of a tally's
// counts, and what stands in a route's places, where any word may be lent.
pub const QUIET: u32 = 0;

pub const FOUND: u32 = 1;

pub const ENTERED: u32 = 2;

pub const GONE: u32 = 3;

pub const JOIN_TURNED_AWAY: u32 = 4;

pub const LEAVE_TURNED_AWAY: u32 = 5;

pub const JOINED: u32 = 6;

pub const LEFT: u32 = 7;

// The ninth count of a tally, behind those of the kinds: refusals.
pub const REFUSAL: u32 = 8;
