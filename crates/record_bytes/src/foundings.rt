// Founding a ring in lent bytes, whoever is to found it.
ghost use Rattle.std.specs.Prelude.{◌≡◌};
ghost use Rattle.protocol.specs.Answers.{refusal};
ghost use Rattle.protocol.specs.Bytes.{words_of, fresh_by_bytes};
ghost use Rattle.protocol.specs.Fresh.{founder_of};

use protocol::Refusal;
use protocol::form::{RECORD_BYTES, RECORD_WORDS};
use word_bytes::{Words, save};

// The lent bytes are not loaded, since an accepted call writes the whole record. (`let .. else` and no `ok_or` with `?`, which copies the identifiers once
// more: with that the compiler did not see that founding clears the words which begin as 0 here, and cleared them twice.)
pub fn fresh(words: &mut [u8], identifiers: &[u8], founder: Option<u32>) -> Result<(), Refusal>
    ensures { fresh_by_bytes words.old identifiers.now (founder_of founder (words_of identifiers.now)) ≡ record { code = refusal result; bytes = words.new } }
{
    if words.len() < RECORD_BYTES {
        return Err(Refusal::RecordShort);
    }
    let Some(ids) = Words::<64>::of(identifiers) else {
        return Err(Refusal::IdentifierCount);
    };
    let mut w = [0u32; RECORD_WORDS];
    founding::fresh(&mut w, ids.as_slice(), founder)?;
    save(words, &w);
    Ok(())
}
