// The fourteen kinds of message, by document 01's numbers.
// No enum: a message is six words that callers in C lend, and until the record was found well formed any of them may stand there. (An enum in `Message`
// would ask of whoever makes one that its kind is known.)
pub const LOOKUP: u32 = 1;

pub const JOIN: u32 = 2;

pub const JOINRETRY: u32 = 3;

pub const JOINPOINT: u32 = 4;

pub const NEWSUCC: u32 = 5;

pub const NEWSUCCACK: u32 = 6;

pub const JOINDONE: u32 = 7;

pub const LEAVEREQ: u32 = 8;

pub const LEAVERETRY: u32 = 9;

pub const LEAVEGRANT: u32 = 10;

pub const LEAVEPOINT: u32 = 11;

pub const UPDATESUCC: u32 = 12;

pub const STOPFORWARD: u32 = 13;

pub const LEAVEDONE: u32 = 14;
