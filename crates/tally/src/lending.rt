ghost use Rattle.std.specs.Prelude.{◌≡◌};
ghost use Rattle.protocol.specs.Answers.{counted as counted_spec};
ghost use Rattle.protocol.specs.Calls.{step_call};

use crate::perform::step;
use protocol::{Answer, Refusal, Tally};

// A step's outcome, and the tally after it.
#[derive(Clone, Copy)]
pub struct Tallied {
    pub outcome: Result<Answer, Refusal>,
    pub tally: Tally,
}

// For a caller that keeps its tally as a value: it is lent to the step, and handed back.
pub fn lend(w: &mut [u32], operation: u32, x: u32, y: u32, t: Tally) -> Tallied
    ensures { (step_call w.old operation x y ≡ record { outcome = result.outcome; slice = w.new })
        × (result.tally ≡ counted_spec t result.outcome) }
{
    let mut tally = t;
    let outcome = step(w, operation, x, y, &mut tally);
    Tallied { outcome, tally }
}
