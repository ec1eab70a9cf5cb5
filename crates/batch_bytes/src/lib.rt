// A route's questions on lent bytes (document 02, 2026-06), for `ring_c`: the record and the numbers are loaded, and what the questions left is
// written back. Asking is done on words that are this call's own, so that no place is half written.
#![tactic(auto)]

ghost use Rattle.std.specs.Prelude.{◌≡◌};
ghost use Rattle.protocol.specs.Answers.{refusal};
ghost use Rattle.protocol.specs.Batch.{batch_bytes};

use protocol::Refusal;
use protocol::form::{MOST_QUESTIONS, PLACE_WORDS, RECORD_WORDS};
use word_bytes::{Words, checked, save};

// Four bytes a word.
const PLACE_BYTES: usize = 24;

// A place for each of the most questions.
const PLACES_WORDS: usize = 384;

pub fn ask(words: &mut [u8], node: u32, numbers: &[u8], outcomes: &mut [u8]) -> Result<(), Refusal>
    ensures { batch_bytes words.old node numbers.now outcomes.old ≡ record { code = refusal result; bytes = words.new; output = outcomes.new } }
{
    let mut w = checked::<RECORD_WORDS>(words)?;
    wellformed::questions(&w)?;
    let asked = Words::<MOST_QUESTIONS>::of(numbers).ok_or(Refusal::RouteLong)?;
    let numbers = asked.as_slice();
    if outcomes.len() / PLACE_BYTES < numbers.len() {
        return Err(Refusal::PlacesShort);
    }
    let mut places = [0u32; PLACES_WORDS];
    batches::ask_each(&mut w, node, numbers, &mut places);
    save(words, &w);
    save(outcomes, &places[..PLACE_WORDS * numbers.len()]);
    Ok(())
}
