// The first two questions of every call but fresh (document 01, 'Questions before a call, in order').
ghost use Rattle.std.specs.Prelude.{◌≡◌, Ok, Err};
ghost use Rattle.protocol.specs.Calls.{on_record};

use crate::whole::well_formed;
use protocol::Refusal;
use protocol::form::RECORD_WORDS;

// 'are there 1,988 words? 1. Is the record well formed? 2.' What passes is a record (`Valid`).
pub fn questions(w: &[u32]) -> Result<(), Refusal>
    ensures { result ≡ on_record w.now Err (Ok tt) }
{
    if w.len() < RECORD_WORDS {
        return Err(Refusal::RecordShort);
    }
    if !well_formed(w) {
        return Err(Refusal::NotWellFormed);
    }
    Ok(())
}
