// Names and identifiers written as an office sheet, whether identifiers are words or bytes.
ghost use Rattle.std.specs.Prelude.{◌≡◌, ◌≤◌, Some, length, map};
ghost use Rattle.sheets.specs.Writer.{zeros};
ghost use Rattle.sheets.specs.Calls.{laid, sheet_text, write_call, write_bytes_call};
ghost use Rattle.sheet_writing.specs.Scanning.{less_by};

use crate::identifiers::Identifier;
use crate::names::{Name, names_for};
use crate::rows::{put_row, row_room};
use protocol::Refusal;
use sheets::Counts;

// The room that all rows leave of so many bytes. (Here and in `put_rows` the loop takes each name off itself: an iterator of names, with its laws,
// would be longer than both.)
fn room_left<T: Identifier>(names: &[u8], identifiers: &[T], limit: usize) -> Option<usize>
    requires { zeros names.now ≡ length identifiers.now }
    ensures { result ≡ less_by (Some limit) (length (sheet_text names.now (map T.value identifiers.now))) }
{
    let mut room = limit;
    let mut rest = names;
    for identifier in identifiers {
        let (name, behind) = Name::next(rest);
        room = row_room(room, name, identifier.word())?;
        rest = behind;
    }
    Some(room)
}

fn put_rows<T: Identifier>(names: &[u8], identifiers: &[T], text: &mut [u8]) -> usize
    requires { (zeros names.now ≡ length identifiers.now) × (length (sheet_text names.now (map T.value identifiers.now)) ≤ length text.old) }
    ensures { (result ≡ length (sheet_text names.now (map T.value identifiers.now))) × (text.new ≡ laid text.old (sheet_text names.now (map T.value identifiers.now))) }
{
    let mut out = 0;
    let mut rest = names;
    for identifier in identifiers {
        let (name, behind) = Name::next(rest);
        out = put_row(name, identifier.word(), text, out);
        rest = behind;
    }
    out
}

// Names and room are looked at before anything is written, so that a refusal writes nothing.
fn write<T: Identifier>(names: &[u8], identifiers: &[T], text: &mut [u8]) -> Result<Counts, Refusal>
    ensures { write_call names.now (map T.value identifiers.now) text.old ≡ record { outcome = result; text = text.new } }
{
    let rows = identifiers.len();
    if !names_for(names, rows) {
        return Err(Refusal::NoSheet);
    }
    room_left(names, identifiers, text.len()).ok_or(Refusal::RoomShort)?;
    let bytes = put_rows(names, identifiers, text);
    Ok(Counts { rows, bytes })
}

pub fn write_sheet(names: &[u8], identifiers: &[u32], text: &mut [u8]) -> Result<Counts, Refusal>
    ensures { write_call names.now identifiers.now text.old ≡ record { outcome = result; text = text.new } }
{
    write(names, identifiers, text)
}

// For callers in C: identifiers as bytes, four a word, lowest first. Bytes that are left over are not read.
pub fn write_sheet_bytes(
    names: &[u8],
    identifiers: &[u8],
    text: &mut [u8],
) -> Result<Counts, Refusal>
    ensures { write_bytes_call names.now identifiers.now text.old ≡ record { outcome = result; text = text.new } }
{
    let (words, _) = identifiers.as_chunks::<4>();
    write(names, words, text)
}
