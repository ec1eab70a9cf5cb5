// The two calls of the office sheet on lent bytes (document 02, 2026-03), for `ring_c`: what the sheet's own call tells, with its counts as bytes.
#![tactic(auto)]

mod results;

ghost use Rattle.std.specs.Prelude.{◌≡◌};
ghost use Rattle.protocol.specs.Answers.{refusal};
ghost use Rattle.sheet_bytes.specs.Told.{sheet_read, sheet_write};

use crate::results::finish_sheet;
use protocol::Refusal;
use sheet_reading::read_sheet_bytes;
use sheet_writing::write_sheet_bytes;

// Two counts of eight bytes.
const COUNTS_BYTES: usize = 16;

// The hubs of an office sheet, into the lent identifiers and names. (`write` begins and ends alike. One function for both would take what is between
// as a closure, with its contract, and be longer than these lines.)
pub fn read(
    text: &[u8],
    identifiers: &mut [u8],
    names: &mut [u8],
    counts: &mut [u8],
) -> Result<(), Refusal>
    ensures { sheet_read text.now identifiers.old names.old counts.old ≡ record { code = refusal result; identifiers = identifiers.new; names = names.new; counts = counts.new } }
{
    if counts.len() < COUNTS_BYTES {
        return Err(Refusal::OutputShort);
    }
    let r = read_sheet_bytes(text, identifiers, names);
    finish_sheet(counts, r)
}

// The office sheet of names and identifiers, into the lent text.
pub fn write(
    names: &[u8],
    identifiers: &[u8],
    text: &mut [u8],
    counts: &mut [u8],
) -> Result<(), Refusal>
    ensures { sheet_write names.now identifiers.now text.old counts.old ≡ record { code = refusal result; text = text.new; counts = counts.new } }
{
    if counts.len() < COUNTS_BYTES {
        return Err(Refusal::OutputShort);
    }
    let r = write_sheet_bytes(names, identifiers, text);
    finish_sheet(counts, r)
}
