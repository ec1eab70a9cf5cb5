ghost use Rattle.std.specs.Prelude.{◌≡◌};
ghost use Rattle.protocol.specs.Batch.{batch_call};

use crate::asks::ask_each;
use protocol::form::{MOST_QUESTIONS, PLACE_WORDS};
use protocol::{Answer, Refusal};

// The numbers asked at the node, an outcome of six words for each. Every slice and every number is taken; what is wrong with the call is
// refused by its number, and a refusal changes no word. What is wrong with a question stands in its outcome, and the others are asked.
pub fn ask(
    w: &mut [u32],
    node: u32,
    numbers: &[u32],
    outcomes: &mut [u32],
) -> Result<Answer, Refusal>
    ensures { batch_call w.old node numbers.now outcomes.old ≡ record { outcome = result; slice = w.new; output = outcomes.new } }
{
    wellformed::questions(w)?;
    if MOST_QUESTIONS < numbers.len() {
        return Err(Refusal::RouteLong);
    }
    if outcomes.len() / PLACE_WORDS < numbers.len() {
        return Err(Refusal::PlacesShort);
    }
    ask_each(w, node, numbers, outcomes);
    Ok(Answer::Quiet)
}
