// An offered card: it replaces the kept one of its machine, goes last, or is refused.
ghost use Rattle.std.specs.Prelude.{◌≡◌, List, ℕ, ◌+◌, ◌≤◌, ◌<◌, nat_eq, length, get_or, MatchOption};
ghost use Rattle.lists.specs.Basics.{first};
ghost use Rattle.lists.specs.Splice.{splice};
ghost use Rattle.protocol.specs.Cards.{most_cards, book_size, card_start, card_words, cards_in, read_book, no_card, renewed, offered, offer_written, offer_call};
ghost use Rattle.cardlayout.specs.Books.{Neat};

use card_checks::{checked_names, nearest};
use protocol::form::{CARD_WORDS, CARDS_AT, MARKS_AT, MOST_CARDS};
use protocol::{Answer, Card, Refusal};

// The place of the card of a machine. (What is asked of k stands in each contract, as for a record: the slice that `offer` is lent may be of any
// length, and an array reference or a struct in its place is a narrower type, which asks more of callers.)
fn find_card(k: &[u32], machine: u32) -> Option<u32>
    requires { (cards_in k.now ≤ most_cards) × (book_size ≤ length k.now) }
    ensures { MatchOption result (first (λ j. nat_eq (get_or k.now (card_start j) 0) machine) (cards_in k.now) ≡ cards_in k.now) (λ j. (j ≡ first (λ i. nat_eq (get_or k.now (card_start i) 0) machine) (cards_in k.now)) × (j < cards_in k.now)) }
{
    (0..k[0]).find(|j| k[CARDS_AT + CARD_WORDS * (*j as usize)] == machine)
}

// The card at place j. (record's `push` and `edit_row` copy in the same way: a function for it takes the slice, the place, N, a type that goes to N
// words and a law of its From, which is longer than the line.)
fn put_card(k: &mut [u32], j: u32, c: Card)
    requires { (j < most_cards) × (book_size ≤ length k.old) }
    ensures { k.new ≡ splice k.old (card_start j) (card_words c) }
{
    let at = CARDS_AT + CARD_WORDS * (j as usize);
    k[at..at + CARD_WORDS].copy_from_slice(&<[u32; CARD_WORDS]>::from(c));
}

// A card of the machine is kept, at place j.
fn renew(k: &mut [u32], j: u32, c: Card) -> Result<Answer, Refusal>
    requires { (Neat k.old) × (j < cards_in k.old) }
    ensures { (w : List ℕ) → offer_written w k.old (renewed (read_book k.old).cards j (get_or (read_book k.old).cards j no_card) c) ≡ record { outcome = result; slice = w; cards = k.new } }
{
    let at = CARDS_AT + CARD_WORDS * (j as usize);
    let revision = k[at + 1];
    if revision < c.revision {
        put_card(k, j, c);
        return Ok(Answer::Quiet);
    }
    if revision != c.revision {
        return Err(Refusal::RevisionLower);
    }
    if k[at + 2] != c.price {
        return Err(Refusal::PriceDiffers);
    }
    Ok(Answer::Quiet)
}

fn put(k: &mut [u32], c: Card) -> Result<Answer, Refusal>
    requires { Neat k.old }
    ensures { (w : List ℕ) → offer_written w k.old (offered (read_book k.old).cards c) ≡ record { outcome = result; slice = w; cards = k.new } }
{
    if let Some(j) = find_card(k, c.machine) {
        return renew(k, j, c);
    }
    let m = k[0];
    if m < MOST_CARDS {
        put_card(k, m, c);
        k[0] = m + 1;
        return Ok(Answer::Quiet);
    }
    Err(Refusal::CardsFull)
}

// A card offered to the ring of the record: its hub is filled in. The record is only read, and a refusal changes no word of the cards. (There is a
// nearest hub: a slice that passes has a member.)
pub fn offer(
    w: &[u32],
    k: &mut [u32],
    machine: u32,
    revision: u32,
    price: u32,
) -> Result<Answer, Refusal>
    ensures { offer_call w.now k.old machine revision price ≡ record { outcome = result; slice = w.now; cards = k.new } }
{
    let names = checked_names(w, k)?;
    let hub = nearest(&names, &k[MARKS_AT..CARDS_AT], machine).unwrap();
    put(
        k,
        Card {
            machine,
            revision,
            price,
            hub,
        },
    )
}
