// Questions 1 and 2 of a call that lends cards beside a record, in their order: are both slices long enough, are both well formed?
ghost use Rattle.std.specs.Prelude.{◌≡◌, ◌&&◌, nat_le, length, MatchResult};
ghost use Rattle.protocol.specs.Record.{record_size, read};
ghost use Rattle.protocol.specs.WellFormed.{identifiers};
ghost use Rattle.protocol.specs.Cards.{book_size, CardsCalled, unchanged, on_both};
ghost use Rattle.layout.specs.Form.{Valid};
ghost use Rattle.card_checks.specs.Ready.{Ready};

use crate::content::book_ok;
use crate::owners::names_of;
use protocol::Refusal;
use protocol::form::{BOOK_WORDS, RECORD_WORDS};

// Question 1 of a call that lends both.
pub fn both_long(w: &[u32], k: &[u32]) -> bool
    ensures { result ≡ (nat_le record_size (length w.now) && nat_le book_size (length k.now)) }
{
    (RECORD_WORDS <= w.len()) & (BOOK_WORDS <= k.len())
}

// The identifiers of the record's nodes, side by side, if both slices pass; all else that a call asks comes after.
pub fn checked_names(w: &[u32], k: &[u32]) -> Result<[u32; 64], Refusal>
    ensures { MatchResult result (λ names. (Valid w.now) × (Ready (identifiers (read w.now)) names k.now) × ((rest : CardsCalled) → on_both w.now k.now rest ≡ rest)) (λ refusal. (rest : CardsCalled) → on_both w.now k.now rest ≡ unchanged w.now k.now refusal) }
{
    if !both_long(w, k) {
        return Err(Refusal::RecordShort);
    }
    if !wellformed::well_formed(w) {
        return Err(Refusal::NotWellFormed);
    }
    let names = names_of(w);
    if !book_ok(w, &names, k) {
        return Err(Refusal::NotWellFormed);
    }
    Ok(names)
}
