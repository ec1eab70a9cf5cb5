// The office sheet read into identifiers and names.
ghost use Rattle.std.specs.Prelude.{◌≡◌, length};
ghost use Rattle.sheets.specs.Reader.{reading};
ghost use Rattle.sheets.specs.Calls.{read_into, read_call, read_bytes_call};
ghost use Rattle.sheet_reading.specs.Filled.{Roomy, AllFilled};

use crate::copying::copy_row;
use crate::identifiers::Identifier;
use crate::judging::judge;
use protocol::Refusal;
use sheets::Counts;

// The text was judged: each row has its identifier, and there is room for all.
fn fill<T: Identifier>(text: &[u8], identifiers: &mut [T], names: &mut [u8])
    requires { Roomy (reading text.now) T.form (length (T.held identifiers.old)) (length names.old) }
    ensures { AllFilled T.form text.now (T.held identifiers.old) names.old (T.held identifiers.new) names.new }
{
    let mut row = 0;
    let mut at = 0;
    let mut i = 0;
    // No `for`: a step is a row of the text, and writes its name. An iterator of rows would hold the names too, and would serve this loop alone.
    while i < text.len() {
        let r = copy_row(text, i, names, at);
        T::put(identifiers, row, r.value.unwrap());
        row += 1;
        at += r.bytes;
        i = r.end;
    }
}

// All is asked before anything is written, so that a refusal writes nothing. (Text, identifiers and names are three arguments: so they are lent, by
// callers in C too.)
fn read<T: Identifier>(
    text: &[u8],
    identifiers: &mut [T],
    names: &mut [u8],
) -> Result<Counts, Refusal>
    ensures { read_into T.form (T.held identifiers.old) names.old (reading text.now) ≡ record { outcome = result; identifiers = T.held identifiers.new; names = names.new } }
{
    let room = Counts {
        rows: T::room(identifiers),
        bytes: names.len(),
    };
    let counts = judge(text, room)?;
    fill(text, identifiers, names);
    Ok(counts)
}

pub fn read_sheet(text: &[u8], identifiers: &mut [u32], names: &mut [u8]) -> Result<Counts, Refusal>
    ensures { read_call text.now identifiers.old names.old ≡ record { outcome = result; identifiers = identifiers.new; names = names.new } }
{
    read(text, identifiers, names)
}

// The same with identifiers as bytes, for callers in C.
pub fn read_sheet_bytes(
    text: &[u8],
    identifiers: &mut [u8],
    names: &mut [u8],
) -> Result<Counts, Refusal>
    ensures { read_bytes_call text.now identifiers.old names.old ≡ record { outcome = result; identifiers = identifiers.new; names = names.new } }
{
    read(text, identifiers, names)
}
