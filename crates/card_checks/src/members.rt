// The nodes of a record beside their marks: the record's words, identifiers side by side, 0 behind the `count` nodes, and a mark for each member.
// (All 64 identifiers and marks, and no slices of `count`: six bits of a word are always a place among them, so that the loops look up preds and hubs
// without a branch that asks whether they are nodes. The marks are a slice, and `each` says that it has 64 words: an array reference comes out of the
// cards' words only by a conversion.)
ghost use Rattle.std.specs.Prelude.{◌≡◌, ℕ, ◌+◌, ◌≤◌, ◌<◌, length, get_or};
ghost use Rattle.lists.specs.Basics.{every, table};
ghost use Rattle.protocol.specs.Record.{most_nodes, record_size};
ghost use Rattle.protocol.specs.Cards.{card_start, card_from};
ghost use Rattle.cardlayout.specs.Reach.{reach as reach_spec};
ghost use Rattle.card_checks.specs.Buckets.{machine_of};
ghost use Rattle.card_checks.specs.Homes.{at_home};

use crate::cards::Cards;
use crate::owners::reach;
use clockwise::distance;

#[derive(Clone, Copy)]
pub(crate) struct Members<'a> {
    pub(crate) record: &'a [u32],
    pub(crate) names: &'a [u32; 64],
    pub(crate) marks: &'a [u32],
    pub(crate) count: usize,
    ghost long: { record_size ≤ length record.now },
    ghost each: { length marks.now ≡ most_nodes },
    ghost few: { count ≤ most_nodes },
}

impl Members<'_> {
    // The reach of each node.
    pub(crate) fn reaches(&self) -> [u32; 64]
        ensures { (h : ℕ) → h < self.now.count → get_or result h 0 ≡ reach_spec self.now.names.now self.now.marks.now h }
    {
        let names = self.names;
        let marks = self.marks;
        let mut reaches = [0u32; 64];
        for h in 0..self.count {
            reaches[h] = reach(names, marks, h);
        }
        reaches
    }

    // Whether card j is with its owner.
    fn at_home(&self, reaches: &[u32; 64], cards: &Cards, j: usize) -> bool
        requires { j < cards.now.count }
        ensures { result ≡ at_home self.now.names.now self.now.marks.now reaches.now (machine_of cards.now.words.now j) (get_or cards.now.words.now (card_start j + 3) 0) }
    {
        let hub = cards.hub(j);
        let slot = (hub % 64) as usize;
        let near = distance(cards.machine(j), self.names[slot]) <= reaches[slot];
        (hub < 64) & (self.marks[slot] == 1) & near
    }

    // Whether each card is with its owner.
    pub(crate) fn all_home(&self, reaches: &[u32; 64], cards: &Cards) -> bool
        ensures { result ≡ every (λ c. at_home self.now.names.now self.now.marks.now reaches.now c.machine c.hub) (table cards.now.count (λ j. card_from cards.now.words.now (card_start j))) }
    {
        (0..cards.count).fold(true, |ok, j| ok & self.at_home(reaches, cards, j))
    }
}
