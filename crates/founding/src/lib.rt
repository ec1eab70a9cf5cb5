// The fresh call: a ring is founded in a lent slice of words, from a list of identifiers.
#![tactic(auto)]

mod founder;
mod writing;

ghost use Rattle.std.specs.Prelude.{◌≡◌};
ghost use Rattle.protocol.specs.Calls.{fresh_by_call};
ghost use Rattle.protocol.specs.Fresh.{founder_of};

use crate::writing::write_fresh;
pub use founder::founding_node;
use protocol::form::RECORD_WORDS;
use protocol::{Answer, Refusal};
use wellformed::all_differ;
pub use writing::clear;

// A ring founded by the node that the caller names, or else by the one with the smallest identifier, wherever it stands in the list. The first
// question that is answered no decides. All of them are asked before any word is written, so a refusal changes none.
pub fn fresh(w: &mut [u32], identifiers: &[u32], founder: Option<u32>) -> Result<Answer, Refusal>
    ensures { fresh_by_call w.old identifiers.now (founder_of founder identifiers.now) ≡ record { outcome = result; slice = w.new } }
{
    if w.len() < RECORD_WORDS {
        return Err(Refusal::RecordShort);
    }
    let few = (1 <= identifiers.len()) & (identifiers.len() <= 64);
    if !few {
        return Err(Refusal::IdentifierCount);
    }
    if !all_differ(identifiers) {
        return Err(Refusal::IdentifierTwice);
    }
    let node = founding_node(founder, identifiers);
    if identifiers.len() <= node {
        return Err(Refusal::NoFounder);
    }
    write_fresh(w, identifiers, node);
    Ok(Answer::Quiet)
}
