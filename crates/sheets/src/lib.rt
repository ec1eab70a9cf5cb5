// The office sheet (document 02, 2026-03): hub names and identifiers as RFC 4180's comma-separated values. What a sheet is, and what reading and
// writing one gives, is in specs/; here is what both ways share.
#![tactic(auto)]

ghost use Rattle.std.specs.Prelude.{◌≡◌, [], ◌∷◌, ◌+◌, ◌-◌, ◌≤◌, ◌<◌, length};
ghost use Rattle.lists.specs.Splice.{splice};
ghost use Rattle.sheets.specs.Grammar.{is_digit, bare as bare_spec};

pub const QUOTE: u8 = 34;

pub const COMMA: u8 = 44;

pub const CR: u8 = 13;

pub const LF: u8 = 10;

// Where a reader stands between two bytes of a sheet; Wrong where no sheet begins with the bytes before. (specs/Reader.antt)
#[derive(Clone, Copy, Debug, PartialEq, Eq)]
pub enum Place {
    Start,
    Plain,
    Opened,
    Quoted,
    Closed,
    Number,
    Digits,
    NumberOpened,
    NumberQuoted,
    NumberClosed,
    Return,
    Wrong,
}

// What a byte does at the place that it leads to: nothing; it is a byte of the name; it ends the name; it is a figure of the number; it ends
// the row.
#[derive(Clone, Copy, Debug, PartialEq, Eq)]
pub enum Effect {
    Quiet,
    Letter,
    EndName,
    Figure,
    EndRow,
}

// What a text that ends at a place ends behind, if a sheet may end there.
#[derive(Clone, Copy, Debug, PartialEq, Eq)]
pub enum Ending {
    Within,
    BehindRows,
    BehindNumber,
}

// How many rows and bytes reading or writing a sheet wrote.
#[derive(Clone, Copy, Debug, PartialEq, Eq)]
pub struct Counts {
    pub rows: usize,
    pub bytes: usize,
}

// May the byte stand unquoted?
pub fn bare(b: u8) -> bool
    ensures { result ≡ bare_spec b }
{
    ((b != QUOTE) & (b != COMMA)) & ((b != CR) & (b != LF))
}

pub fn is_digit(b: u8) -> bool
    ensures { result ≡ is_digit b }
{
    b.is_ascii_digit()
}

// The value of a digit; of a byte below all digits, which is never read as one, 0. A function, since it states a rule of the reader (`valued` in
// specs/Reader.antt) and is plainer than the library's way, over a char to an Option.
pub fn digit_value(b: u8) -> usize
    ensures { (result ≡ b - 48) × (result < 256) }
{
    usize::from(b.saturating_sub(48))
}

// One byte, at a place of a buffer. The place behind it is returned.
pub fn put_byte(text: &mut [u8], at: usize, b: u8) -> usize
    requires { at + 1 ≤ length text.old }
    ensures { (result ≡ at + 1) × (text.new ≡ splice text.old at (b ∷ [])) }
{
    text[at] = b;
    at + 1
}
