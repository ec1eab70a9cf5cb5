// What a call of the sheet hands back: the refusal and no count written, or the counts.
ghost use Rattle.std.specs.Prelude.{◌≡◌, ◌≤◌, length};
ghost use Rattle.protocol.specs.Answers.{refusal};
ghost use Rattle.sheet_bytes.specs.Told.{counts_after};

use protocol::Refusal;
use sheets::Counts;
use word_bytes::save;

// A sheet that was read or written: rows, then bytes.
pub(crate) fn finish_sheet(counts: &mut [u8], r: Result<Counts, Refusal>) -> Result<(), Refusal>
    requires { 16 ≤ length counts.old }
    ensures code { refusal result ≡ refusal r }
    ensures counts { counts.new ≡ counts_after counts.old r }
{
    let Counts { rows, bytes } = r?;
    // Two words each, as the definition has them.
    let words = [
        (rows % 4294967296) as u32,
        (rows / 4294967296) as u32,
        (bytes % 4294967296) as u32,
        (bytes / 4294967296) as u32,
    ];
    save(counts, &words);
    Ok(())
}
