// The step with cards and a tally (document 01, 'Reading the ring', and document 02, 2026-04): a step that record or cards refuse is counted too.
#![tactic(auto)]

ghost use Rattle.std.specs.Prelude.{◌≡◌};
ghost use Rattle.protocol.specs.Answers.{counted as counted_spec};
ghost use Rattle.protocol.specs.Cards.{step_cards};

use protocol::{Answer, Refusal, Tally};
use tally::counted;

// The step as the caller makes it, with its cards and its tally lent.
pub fn step(
    w: &mut [u32],
    k: &mut [u32],
    operation: u32,
    x: u32,
    y: u32,
    t: &mut Tally,
) -> Result<Answer, Refusal>
    ensures { (step_cards w.old k.old operation x y ≡ record { outcome = result; slice = w.new; cards = k.new })
        × (t.new ≡ counted_spec t.old (step_cards w.old k.old operation x y).outcome) }
{
    let r = cards::step(w, k, operation, x, y);
    *t = counted(*t, r);
    r
}
