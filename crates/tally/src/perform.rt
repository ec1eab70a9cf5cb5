ghost use Rattle.std.specs.Prelude.{◌≡◌};
ghost use Rattle.protocol.specs.Answers.{counted as counted_spec};
ghost use Rattle.protocol.specs.Calls.{step_call};

use crate::counts::counted;
use protocol::{Answer, Refusal, Tally};

// The step as the caller makes it, with its tally lent. Every slice and every three numbers are taken, and the tally is
// 'the one lent thing that a refusal alters'.
pub fn step(w: &mut [u32], operation: u32, x: u32, y: u32, t: &mut Tally) -> Result<Answer, Refusal>
    ensures { (step_call w.old operation x y ≡ record { outcome = result; slice = w.new })
        × (t.new ≡ counted_spec t.old (step_call w.old operation x y).outcome) }
{
    let r = steps::step(w, operation, x, y);
    *t = counted(*t, r);
    r
}
