// A row: the room that it takes, and its text.
ghost use Rattle.std.specs.Prelude.{◌≡◌, [], ◌∷◌, ◌++◌, ◌+◌, ◌≤◌, Some, length};
ghost use Rattle.lists.specs.Splice.{splice};
ghost use Rattle.sheets.specs.Grammar.{cr, lf, comma, doubled};
ghost use Rattle.sheets.specs.Writer.{decimal, name_text, row_text};
ghost use Rattle.sheet_writing.specs.Scanning.{quote_if, less_by};

use crate::decimals::{digit_count, put_digits};
use crate::names::Name;
use sheets::{COMMA, CR, LF, QUOTE, put_byte};

// Two quotes around a name that may not stand unquoted.
fn quote_cost(plain: bool) -> usize
    ensures { result ≡ length (quote_if plain) + length (quote_if plain) }
{
    if plain { 0 } else { 2 }
}

// What a row leaves of the room: part by part, so that no sum can be too large.
pub(crate) fn row_room(room: usize, name: Name, v: u32) -> Option<usize>
    ensures { result ≡ less_by (Some room) (length (row_text (record { name = name.entry.bytes.now; identifier = v }))) }
{
    room.checked_sub(name.bytes.len())?
        .checked_sub(name.quotes)?
        .checked_sub(quote_cost(name.plain))?
        .checked_sub(digit_count(v) + 3)
}

// A text and a place in it stay two arguments: a struct that holds a `&mut` would have to say in each contract that it still holds the same text.
fn put_quote(text: &mut [u8], at: usize, plain: bool) -> usize
    requires { at + length (quote_if plain) ≤ length text.old }
    ensures { (result ≡ at + length (quote_if plain)) × (text.new ≡ splice text.old at (quote_if plain)) }
{
    if plain {
        return at;
    }
    put_byte(text, at, QUOTE)
}

// A byte of a name, a quote twice.
fn put_twice(text: &mut [u8], at: usize, b: u8) -> usize
    requires { at + length (doubled (b ∷ [])) ≤ length text.old }
    ensures { (result ≡ at + length (doubled (b ∷ []))) × (text.new ≡ splice text.old at (doubled (b ∷ []))) }
{
    if b == QUOTE {
        let next = put_byte(text, at, QUOTE);
        return put_byte(text, next, QUOTE);
    }
    put_byte(text, at, b)
}

fn put_doubled(name: &[u8], text: &mut [u8], at: usize) -> usize
    requires { at + length (doubled name.now) ≤ length text.old }
    ensures { (result ≡ at + length (doubled name.now)) × (text.new ≡ splice text.old at (doubled name.now)) }
{
    let mut to = at;
    for b in name {
        to = put_twice(text, to, *b);
    }
    to
}

fn put_name(name: Name, text: &mut [u8], at: usize) -> usize
    requires { at + length (name_text name.bytes.now) ≤ length text.old }
    ensures { (result ≡ at + length (name_text name.entry.bytes.now)) × (text.new ≡ splice text.old at (name_text name.entry.bytes.now)) }
{
    let opened = put_quote(text, at, name.plain);
    let named = put_doubled(name.bytes, text, opened);
    put_quote(text, named, name.plain)
}

// A comma, the identifier, CR LF.
fn put_number(text: &mut [u8], at: usize, v: u32) -> usize
    requires { at + length (comma ∷ (decimal v ++ (cr ∷ lf ∷ []))) ≤ length text.old }
    ensures { (result ≡ at + length (comma ∷ (decimal v ++ (cr ∷ lf ∷ [])))) × (text.new ≡ splice text.old at (comma ∷ (decimal v ++ (cr ∷ lf ∷ [])))) }
{
    let first = put_byte(text, at, COMMA);
    let count = digit_count(v);
    put_digits(text, first, count, v);
    let end = put_byte(text, first + count, CR);
    put_byte(text, end, LF)
}

pub(crate) fn put_row(name: Name, v: u32, text: &mut [u8], at: usize) -> usize
    requires { at + length (row_text (record { name = name.bytes.now; identifier = v })) ≤ length text.old }
    ensures { (result ≡ at + length (row_text (record { name = name.entry.bytes.now; identifier = v }))) × (text.new ≡ splice text.old at (row_text (record { name = name.entry.bytes.now; identifier = v }))) }
{
    let named = put_name(name, text, at);
    put_number(text, named, v)
}
