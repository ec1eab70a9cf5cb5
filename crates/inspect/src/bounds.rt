// How much there is of everything.
use protocol::form::RECORD_WORDS;
use texts::Text;

// The record, and two words behind it.
pub const KEPT_WORDS: usize = RECORD_WORDS + 2;

// The longest output of a roll call: as many places as a ring has hubs.
pub const MOST_PLACES: usize = 64;

// The longest frame. A line has room for one byte more, so that what is longer still does not read.
pub const FRAME_BYTES: usize = 514;

pub const KEPT_BYTES: usize = FRAME_BYTES + 1;

// More bytes than the longest answer, that of 256 waiting questions.
pub type AnswerText = Text<32768>;
