// The form of a record (document 01, 'Ring record'): how many words, and where rows and messages stand. specs/Record.antt has the same
// numbers, and every proof holds the two together.
pub const FORM: u32 = 1;

pub const RECORD_WORDS: usize = 1988;

// The same as bytes, four a word.
pub const RECORD_BYTES: usize = 7952;

pub const ROWS_AT: usize = 4;

pub const ROW_WORDS: usize = 7;

pub const MOST_NODES: u32 = 64;

pub const MESSAGES_AT: usize = 452;

pub const MESSAGE_WORDS: usize = 6;

pub const MOST_MESSAGES: u32 = 256;

// The words of an answer, and the same as bytes.
pub const ANSWER_WORDS: usize = 5;

pub const ANSWER_BYTES: usize = 20;

// 'Pointers are hub numbers, 255 for none.' (No Option: a row is words that callers in C lend.)
pub const NONE: u32 = 255;

// The form of a card slice (document 02, 2026-04): the number of cards, a mark for each node, and four words a card. specs/Cards.antt has the same numbers.
pub const BOOK_WORDS: usize = 2113;

pub const BOOK_BYTES: usize = 8452;

pub const MARKS_AT: usize = 1;

pub const CARDS_AT: usize = 65;

pub const CARD_WORDS: usize = 4;

pub const MOST_CARDS: u32 = 512;

// A route's questions (document 02, 2026-06): how many at most, and six words for the outcome of each. specs/Batch.antt has the same numbers.
pub const MOST_QUESTIONS: usize = 64;

pub const PLACE_WORDS: usize = 6;
