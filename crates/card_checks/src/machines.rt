// No machine has two cards. Buckets find it out in a few looks a card, and give up where many machines crowd into one; then their digits decide.
ghost use Rattle.std.specs.Prelude.{◌≡◌};
ghost use Rattle.lists.specs.Basics.{table, distinct};
ghost use Rattle.card_checks.specs.Buckets.{machine_of};

use crate::buckets::by_buckets;
use crate::cards::Cards;
use crate::digits::by_digits;

// (A match: with `unwrap_or_else` the proof of what is returned did not close, since nothing is known there of what the closure gives.)
pub(crate) fn machines_differ(cards: &Cards) -> bool
    ensures { result ≡ distinct (table cards.now.count (machine_of cards.now.words.now)) }
{
    match by_buckets(cards) {
        Some(differ) => differ,
        None => by_digits(cards),
    }
}
