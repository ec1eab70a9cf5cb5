// Do the machines of the cards differ? Each card is put into a bucket by its machine, and held against those that are in it already: `heads` has
// one more than the last card of each bucket, `earlier` one more than the one before each card in its bucket, 0 for none. (Arrays and places in
// them, since nothing here may allocate; words of 0 for none, since options would take twice the room, which is cleared at each call.)
ghost use Rattle.std.specs.Prelude.{◌≡◌, ℕ, ◌<◌, IfSome, get_or};
ghost use Rattle.lists.specs.Basics.{table, distinct};
ghost use Rattle.card_checks.specs.Buckets.{machine_of, buckets, bucket_of, last, unmet};

use crate::cards::Cards;

// How many cards of a bucket a card is held against before the walk is given up.
const MOST_STEPS: usize = 4;

// The bucket of a machine: the high bits of a product spread neighbouring numbers.
fn bucket(machine: u32) -> usize
    ensures { (result ≡ bucket_of machine) × (result < buckets) }
{
    (u64::from(machine) * 2654435769 / 4194304 % 1024) as usize
}

// Whether no card before card i has its machine; `None` where the walk was given up, since too many cards are in its bucket. `start` is one more
// than the last card before it in its bucket.
fn is_first(cards: &Cards, earlier: &[u32; 512], i: usize, start: u32) -> Option<bool>
    requires { (i < cards.now.count) × (start ≡ last (machine_of cards.now.words.now) (bucket_of (machine_of cards.now.words.now i)) i) × ((j : ℕ) → j < i → get_or earlier.now j 0 ≡ last (machine_of cards.now.words.now) (bucket_of (machine_of cards.now.words.now j)) j) }
    ensures { IfSome result (λ v. v ≡ unmet (machine_of cards.now.words.now) i) }
{
    let machine = cards.machine(i);
    let mut p = start as usize;
    for _ in 0..MOST_STEPS {
        if p == 0 {
            return Some(true);
        }
        let j = p - 1;
        if cards.machine(j) == machine {
            return Some(false);
        }
        p = earlier[j] as usize;
    }
    if p == 0 {
        return Some(true);
    }
    None
}

// Whether the machines of the cards differ; `None` where a walk was given up.
pub(crate) fn by_buckets(cards: &Cards) -> Option<bool>
    ensures { IfSome result (λ v. v ≡ distinct (table cards.now.count (machine_of cards.now.words.now))) }
{
    let mut heads = [0u32; 1024];
    let mut earlier = [0u32; 512];
    for i in 0..cards.count {
        let b = bucket(cards.machine(i));
        let before = heads[b];
        if !is_first(cards, &earlier, i, before)? {
            return Some(false);
        }
        earlier[i] = before;
        heads[b] = (i + 1) as u32;
    }
    Some(true)
}
