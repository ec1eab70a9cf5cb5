// The fresh calls for a caller that names the founder.
ghost use Rattle.std.specs.Prelude.{◌≡◌};
ghost use Rattle.protocol.specs.Calls.{fresh_by_call};
ghost use Rattle.protocol.specs.Cards.{fresh_by_cards as fresh_by_cards_spec};

use protocol::{Answer, Refusal};

// A ring founded by the node that the caller names.
pub fn fresh_by(w: &mut [u32], identifiers: &[u32], founder: u32) -> Result<Answer, Refusal>
    ensures { fresh_by_call w.old identifiers.now founder ≡ record { outcome = result; slice = w.new } }
{
    founding::fresh(w, identifiers, Some(founder))
}

// The same, with its card slice.
pub fn fresh_by_cards(
    w: &mut [u32],
    k: &mut [u32],
    identifiers: &[u32],
    founder: u32,
) -> Result<Answer, Refusal>
    ensures { fresh_by_cards_spec w.old k.old identifiers.now founder ≡ record { outcome = result; slice = w.new; cards = k.new } }
{
    cards::fresh(w, k, identifiers, Some(founder))
}
