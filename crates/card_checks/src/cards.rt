// The cards of a slice: its words, and how many cards are in use.
ghost use Rattle.std.specs.Prelude.{◌≡◌, ℕ, ◌≤◌, ◌<◌, ◌+◌, length, get_or};
ghost use Rattle.protocol.specs.Record.{round};
ghost use Rattle.protocol.specs.Cards.{most_cards, book_size, card_start};
ghost use Rattle.card_checks.specs.Buckets.{machine_of};

use protocol::form::{CARD_WORDS, CARDS_AT};

#[derive(Clone, Copy)]
pub(crate) struct Cards<'a> {
    pub(crate) words: &'a [u32],
    pub(crate) count: usize,
    ghost few: { count ≤ most_cards },
    ghost long: { book_size ≤ length words.now },
    ghost fit: { (i : ℕ) → get_or words.now i 0 < round },
}

impl Cards<'_> {
    pub(crate) fn machine(&self, j: usize) -> u32
        requires { j < self.now.count }
        ensures { result ≡ machine_of self.now.words.now j }
    {
        self.words[CARDS_AT + CARD_WORDS * j]
    }

    pub(crate) fn hub(&self, j: usize) -> u32
        requires { j < self.now.count }
        ensures { result ≡ get_or self.now.words.now (card_start j + 3) 0 }
    {
        self.words[CARDS_AT + CARD_WORDS * j + 3]
    }
}
