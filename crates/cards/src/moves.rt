// Cards change hub: a node that is marked gets the machines within its reach, a node whose mark is taken away gives them to the next.
ghost use Rattle.std.specs.Prelude.{◌≡◌, List, map, ℕ, ◌<◌, length, set};
ghost use Rattle.protocol.specs.Record.{most_nodes};
ghost use Rattle.protocol.specs.Cards.{marks_in, read_book, marked, moved, put_book};
ghost use Rattle.cardlayout.specs.Marks.{Marked};
ghost use Rattle.cardlayout.specs.Books.{Neat};
ghost use Rattle.card_checks.specs.Ready.{Ready};
ghost use Rattle.cards.specs.Moves.{handed};

use card_checks::{nearest, reach};
use clockwise::distance;
use lists::pick;
use protocol::form::{CARD_WORDS, CARDS_AT, MARKS_AT};

// Each card whose machine is at most `far` before the identifier gets the hub. (The slice is lent as it is, and not in a struct with Neat as its
// invariant: that would have to hold after each word of the loop. Words by their index: of `chunks_exact_mut` and of `as_chunks_mut`, tried here, a
// proof knows the slice's length afterwards and not its words, so the contract didn't follow.)
fn hand_over(k: &mut [u32], id: u32, far: u32, hub: u32)
    requires { Neat k.old }
    ensures { k.new ≡ put_book k.old (record { marks = marks_in k.old; cards = map (handed id far hub) (read_book k.old).cards }) }
{
    for j in 0..k[0] as usize {
        let at = CARDS_AT + CARD_WORDS * j;
        k[at + 3] = pick(distance(k[at], id) <= far, hub, k[at + 3]);
    }
}

// Node h is marked, and the machines within its reach come to it. (That h is below `most_nodes` is a clause here, of `leave` and of `depart`, and no
// type: a type would be made from an answer's number in `follow` and opened again for each use, the mark's place, the identifier and the hub.)
pub(crate) fn enter(k: &mut [u32], names: &[u32; 64], h: u32)
    requires { (Neat k.old) × (h < most_nodes) }
    ensures { (ids : List ℕ) → Ready ids names.now k.old → h < length ids → k.new ≡ put_book k.old (moved ids (read_book k.old) (set (marks_in k.old) h 1)) }
{
    let node = h as usize;
    let id = names[node];
    k[MARKS_AT + node] = 1;
    let far = reach(names, &k[MARKS_AT..CARDS_AT], node);
    hand_over(k, id, far, h);
}

// The mark of node h is taken away, and its machines go to whoever is next. A node without a mark has no card.
pub(crate) fn leave(k: &mut [u32], names: &[u32; 64], h: u32)
    requires { (Neat k.old) × (h < most_nodes) }
    ensures { (ids : List ℕ) → Ready ids names.now k.old → h < length ids → (m : ℕ) → Marked (set (marks_in k.old) h 0) m → k.new ≡ put_book k.old (moved ids (read_book k.old) (set (marks_in k.old) h 0)) }
{
    let node = h as usize;
    let id = names[node];
    if k[MARKS_AT + node] == 0 {
        return;
    }
    let far = reach(names, &k[MARKS_AT..CARDS_AT], node);
    k[MARKS_AT + node] = 0;
    let Some(next) = nearest(names, &k[MARKS_AT..CARDS_AT], id) else {
        return;
    };
    hand_over(k, id, far, next);
}
