// A row of a sheet that was judged: its name into the lent names, its bytes and number handed back. That the text is a sheet and the names are long
// enough is known, so no byte of a name is looked at but for the one that ends it. Text, names and a place in each are passed on one by one: a
// struct of them would be taken apart again in each function, since each goes on from other places.
ghost use Rattle.std.specs.Prelude.{◌≡◌, ◌<◌, length, get_or};
ghost use Rattle.sheets.specs.Grammar.{quote};
ghost use Rattle.sheets.specs.declared.Place.TheVariants.{Start, Quoted};
ghost use Rattle.sheet_reading.specs.Put.{Readable, Copies, place_for, test_for, Copied, NamePut, RowPut};

use crate::judging::row_of;
use crate::{Name, Row};
use sheets::{COMMA, QUOTE};

// The bytes of a name up to the one that ends them, to a place of the names on. Names are short: with `run_end` and `copy_from_slice` in the place
// of this loop, a plain sheet took a tenth longer and one with many quotes a seventh, and the plain one missed its target in docs/BENCH.md.
fn copy_until(text: &[u8], from: usize, names: &mut [u8], at: usize, stop: u8) -> usize
    requires { Copies (place_for stop) stop (test_for stop) × Readable text.now (place_for stop) from at (length names.old) }
    ensures { Copied text.now from result stop names.old at names.new }
{
    for i in from..text.len() {
        if text[i] == stop {
            return i;
        }
        names[at + (i - from)] = text[i];
    }
    text.len()
}

// The rest of a quoted name, from a quote on. A quote behind it is a byte of the name; any other byte there is the comma.
fn copy_quotes(text: &[u8], from: usize, names: &mut [u8], at: usize) -> Name
    requires { (from < length text.now) × (get_or text.now from 0 ≡ quote) × Readable text.now Quoted from at (length names.old) }
    ensures { NamePut text.now Quoted from names.old at names.new result }
{
    let mut i = from;
    let mut k = at;
    // No `for`: a step is two quotes and the bytes behind them.
    while text[i + 1] == QUOTE {
        names[k] = QUOTE;
        let next = i + 2;
        i = copy_until(text, next, names, k + 1, QUOTE);
        k = k + 1 + (i - next);
    }
    names[k] = 0;
    Name {
        end: i + 2,
        bytes: k + 1 - at,
    }
}

// A quoted name, from behind its first quote on.
fn copy_quoted(text: &[u8], from: usize, names: &mut [u8], at: usize) -> Name
    requires { Readable text.now Quoted from at (length names.old) }
    ensures { NamePut text.now Quoted from names.old at names.new result }
{
    let q = copy_until(text, from, names, at, QUOTE);
    let rest = copy_quotes(text, q, names, at + (q - from));
    Name {
        end: rest.end,
        bytes: q - from + rest.bytes,
    }
}

fn copy_name(text: &[u8], from: usize, names: &mut [u8], at: usize) -> Name
    requires { (from < length text.now) × Readable text.now Start from at (length names.old) }
    ensures { NamePut text.now Start from names.old at names.new result }
{
    if text[from] == QUOTE {
        return copy_quoted(text, from + 1, names, at);
    }
    let e = copy_until(text, from, names, at, COMMA);
    let length = e - from;
    names[at + length] = 0;
    Name {
        end: e + 1,
        bytes: length + 1,
    }
}

// The row has a number and an end: the text was judged.
pub(crate) fn copy_row(text: &[u8], from: usize, names: &mut [u8], at: usize) -> Row
    requires { (from < length text.now) × Readable text.now Start from at (length names.old) }
    ensures { RowPut text.now from names.old at names.new result }
{
    let name = copy_name(text, from, names, at);
    row_of(text, name).unwrap()
}
