// The slice that comes with a ring just founded: all words 0 but the mark of the founder.
ghost use Rattle.std.specs.Prelude.{◌≡◌, ◌≤◌, ◌<◌, length};
ghost use Rattle.protocol.specs.Record.{most_nodes};
ghost use Rattle.protocol.specs.Fresh.{founder_of};
ghost use Rattle.protocol.specs.Cards.{book_size, new_book, put_book, fresh_by_cards};

use card_checks::both_long;
use founding::founding_node;
use protocol::form::{BOOK_WORDS, MARKS_AT};
use protocol::{Answer, Refusal};

// The words of a new book, written over whatever the slice came with.
fn write_new(k: &mut [u32], node: usize)
    requires { (node < most_nodes) × (book_size ≤ length k.old) }
    ensures { k.new ≡ put_book k.old (new_book node) }
{
    founding::clear(k, BOOK_WORDS);
    k[MARKS_AT + node] = 1;
}

// A ring founded with its card slice, whoever is to found it. Fresh asks all its questions before it writes, so a refusal changes no word of either.
// (Of what `checked_names` asks it asks question 1 alone: of the words that it writes over it asks nothing.)
pub fn fresh(
    w: &mut [u32],
    k: &mut [u32],
    identifiers: &[u32],
    founder: Option<u32>,
) -> Result<Answer, Refusal>
    ensures { fresh_by_cards w.old k.old identifiers.now (founder_of founder identifiers.now) ≡ record { outcome = result; slice = w.new; cards = k.new } }
{
    if !both_long(w, k) {
        return Err(Refusal::RecordShort);
    }
    let a = founding::fresh(w, identifiers, founder)?;
    write_new(k, founding_node(founder, identifiers));
    Ok(a)
}
