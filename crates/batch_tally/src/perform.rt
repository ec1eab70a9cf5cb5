ghost use Rattle.std.specs.Prelude.{◌≡◌};
ghost use Rattle.protocol.specs.Batch.{batch_call, batch_outcomes, counted_all};

use crate::counts::count_each;
use protocol::{Answer, Refusal, Tally};

// The numbers asked at the node as `batches::ask` asks them, with the caller's tally lent. Every slice and every number is taken; a refused
// question is counted, and a refused call changes nothing, the tally neither.
pub fn ask(
    w: &mut [u32],
    node: u32,
    numbers: &[u32],
    outcomes: &mut [u32],
    t: &mut Tally,
) -> Result<Answer, Refusal>
    ensures { (batch_call w.old node numbers.now outcomes.old ≡ record { outcome = result; slice = w.new; output = outcomes.new })
        × (t.new ≡ counted_all t.old (batch_outcomes w.old node numbers.now outcomes.old)) }
{
    let answer = batches::ask(w, node, numbers, outcomes)?;
    *t = count_each(*t, outcomes, numbers.len());
    Ok(answer)
}
