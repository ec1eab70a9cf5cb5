// A sheet judged, row by row: is it one, do its identifiers fit, how many rows and bytes of names does it say, and is there room for them?
ghost use Rattle.std.specs.Prelude.{◌≡◌, ◌≤◌, ◌<◌, length};
ghost use Rattle.sheets.specs.Reader.{reading};
ghost use Rattle.sheet_reading.specs.Judged.{EndIs, RestIs, RowIs};
ghost use Rattle.sheet_reading.specs.Filled.{judged};

use crate::bytes::Kinds;
use crate::numbers::number_at;
use crate::{Name, Row};
use protocol::Refusal;
use sheets::{CR, Counts, LF};

// Behind a number: the end of the text, or CR LF.
fn row_end(text: &[u8], from: usize) -> Option<usize>
    requires { from ≤ length text.now }
    ensures { EndIs text.now from result }
{
    match &text[from..] {
        [] => Some(from),
        [CR, LF, ..] => Some(from + 2),
        _ => None,
    }
}

// The row of a name that was judged or copied: its number, and its end. Inlined in both, since the call would hand the Option back through memory, by
// which reading a plain sheet took a seventh longer.
#[inline(always)]
pub(crate) fn row_of(text: &[u8], name: Name) -> Option<Row>
    requires { name.end ≤ length text.now }
    ensures { RestIs text.now name result }
{
    let number = number_at(text, name.end)?;
    let end = row_end(text, number.end)?;
    Some(Row {
        end,
        bytes: name.bytes,
        value: number.value,
    })
}

impl Kinds {
    fn row_at(&self, text: &[u8], from: usize) -> Option<Row>
        requires { from < length text.now }
        ensures { RowIs text.now from result }
    {
        let name = self.name_at(text, from)?;
        row_of(text, name)
    }
}

// The questions in the order of their numbers, where there is room for so many rows and bytes: all of the text is looked at before 20 is asked, and
// 20 is asked of all identifiers before 21.
pub(crate) fn judge(text: &[u8], room: Counts) -> Result<Counts, Refusal>
    ensures { result ≡ judged room (reading text.now) }
{
    let kinds = Kinds::new();
    let mut rows = 0;
    let mut bytes = 0;
    let mut fits = true;
    let mut i = 0;
    // No `for`: a step is a row of the text. An iterator of rows, with its laws, would be longer than the loop, and serve no other: `fill` writes.
    while i < text.len() {
        let row = kinds.row_at(text, i).ok_or(Refusal::NoSheet)?;
        rows += 1;
        bytes += row.bytes;
        fits = fits & row.value.is_some();
        i = row.end;
    }
    if !fits {
        return Err(Refusal::IdentifierTooLarge);
    }
    if room.rows < rows || room.bytes < bytes {
        return Err(Refusal::RoomShort);
    }
    Ok(Counts { rows, bytes })
}
