// Do the machines of the cards differ? By their digits, from the lowest: cards whose machines have the same digits so far are a group, and each pass
// parts the groups by four bits more. The first groups are by nine bits, so six passes are the most. Linear in the cards, whatever their machines are.
ghost use Rattle.std.specs.Prelude.{◌≡◌, ℕ, ◌+◌, ◌/◌, ◌%◌, ◌≤◌, ◌<◌, nat_eq, get_or, set};
ghost use Rattle.lists.specs.Basics.{when◌then◌else◌, table, distinct};
ghost use Rattle.protocol.specs.Cards.{most_cards};
ghost use Rattle.card_checks.specs.Buckets.{machine_of};
ghost use Rattle.card_checks.specs.Digits.{slot_count, Parted, Grouped, following};

use crate::cards::Cards;

// A slot for each group and digit.
const SLOTS: usize = 8208;

// How many passes part cards with different machines.
const MOST_PASSES: u32 = 6;

// The first card that came to a slot, or card i where none did; each as one more than its place, and 0 for none, since options would take twice the
// room, which each pass clears. Nothing is written to a slot that is taken: where all cards come to the same one, each would have to wait for the
// word that the card before it wrote.
fn first_come(slots: &mut [u16; SLOTS], slot: usize, i: usize) -> u16
    requires { (slot < slot_count) × (i < most_cards) }
    ensures { (result ≡ (when nat_eq (get_or slots.old slot 0) 0 then i + 1 else get_or slots.old slot 0)) × (slots.new ≡ set slots.old slot result) }
{
    let seen = slots[slot];
    if seen == 0 {
        let own = (i + 1) as u16;
        slots[slot] = own;
        return own;
    }
    seen
}

// The first cards of a slice, in groups: what is left of each card's machine, and the name of its group: the lowest nine bits of its machine, and
// after a pass one more than the first card of the group. (Two arrays, and how much of them is in use, since nothing here may allocate; and no array of
// pairs: tried, by which 512 cards in one bucket took this test 1.4 times as long, and missed the target beside tuned that two arrays meet.)
#[derive(Clone, Copy)]
struct Groups {
    count: usize,
    rest: [u32; 512],
    names: [u32; 512],
    ghost few: { count ≤ most_cards },
}

impl Groups {
    // As the machines are, before the first pass. (Written where the groups stay: made here and handed out, they would be copied.)
    fn cut(&mut self, cards: &Cards)
        requires { self.old.count ≡ cards.now.count }
        ensures { (self.new.count ≡ self.old.count) × ((j : ℕ) → j < self.old.count → get_or self.new.names j 0 ≡ machine_of cards.now.words.now j % 512) × ((j : ℕ) → j < self.old.count → get_or self.new.rest j 0 ≡ machine_of cards.now.words.now j / 512) }
    {
        for j in 0..cards.count {
            let machine = cards.machine(j);
            self.names[j] = machine % 512;
            self.rest[j] = machine / 512;
        }
    }

    // One pass.
    fn part(&mut self)
        requires { (j : ℕ) → j < self.old.count → get_or self.old.names j 0 ≤ most_cards }
        ensures { (self.new.count ≡ self.old.count) × Parted self.old.count self.old.rest self.old.names self.new.rest self.new.names }
    {
        let mut slots = [0u16; SLOTS];
        for i in 0..self.count {
            let left = self.rest[i];
            let slot = (self.names[i] * 16 + left % 16) as usize;
            let first = first_come(&mut slots, slot, i);
            self.names[i] = u32::from(first);
            self.rest[i] = left / 16;
        }
    }

    // Whether each card is the first of its group.
    fn all_lead(&self) -> bool
        ensures { result ≡ nat_eq (following self.now.count self.now.names) 0 }
    {
        let mut ok = true;
        for i in 0..self.count {
            ok &= self.names[i] == (i + 1) as u32;
        }
        ok
    }

    // Passes, until each card is the first of its group, but six at most: then the cards of a group have the same machine.
    fn part_all(&mut self) -> bool
        requires { (j : ℕ) → j < self.old.count → get_or self.old.names j 0 ≤ most_cards }
        ensures { (f : ℕ → ℕ) → Grouped f self.old.count 6 self.old.rest self.old.names → result ≡ distinct (table self.old.count f) }
    {
        for _ in 0..MOST_PASSES {
            self.part();
            if self.all_lead() {
                return true;
            }
        }
        false
    }
}

pub(crate) fn by_digits(cards: &Cards) -> bool
    ensures { result ≡ distinct (table cards.now.count (machine_of cards.now.words.now)) }
{
    let mut groups = Groups {
        count: cards.count,
        rest: [0; 512],
        names: [0; 512],
    };
    groups.cut(cards);
    groups.part_all()
}
