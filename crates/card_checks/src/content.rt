// Is the card slice well formed beside its record? The questions in turn; `names` are the record's identifiers, side by side.
ghost use Rattle.std.specs.Prelude.{◌≡◌, List, ℕ, ◌≤◌, nat_eq, length};
ghost use Rattle.lists.specs.Basics.{table, every};
ghost use Rattle.protocol.specs.Record.{most_nodes, record_size, read};
ghost use Rattle.protocol.specs.WellFormed.{identifiers};
ghost use Rattle.protocol.specs.Cards.{book_size, marks_in, card_from, card_start, marked, home, book_ok};
ghost use Rattle.layout.specs.Form.{Valid};
ghost use Rattle.layout.specs.Owners.{Names};
ghost use Rattle.cardlayout.specs.Sound.{MarksForm};
ghost use Rattle.card_checks.specs.Homes.{Copied};

use crate::cards::Cards;
use crate::machines::machines_differ;
use crate::marks::marks_ok;
use crate::members::Members;
use crate::preds::member_reaches;
use protocol::form::{BOOK_WORDS, CARD_WORDS, CARDS_AT, MARKS_AT, MOST_CARDS};
use wellformed::all_zero;

// Whether each card is with its owner among the n nodes that are marked.
fn homes_ok(w: &[u32], cards: &Cards, n: u32, names: &[u32; 64]) -> bool
    requires { (n ≤ most_nodes) × (record_size ≤ length w.now) }
    ensures { (ids : List ℕ) → Names ids → Copied names.now ids → length ids ≡ n → MarksForm n (marks_in cards.now.words.now) → result ≡ every (λ c. nat_eq c.hub (home ids (marked (marks_in cards.now.words.now)) c.machine)) (table cards.now.count (λ j. card_from cards.now.words.now (card_start j))) }
{
    let members = Members {
        record: w,
        names,
        marks: &cards.words[MARKS_AT..CARDS_AT],
        count: n as usize,
    };
    let reaches = member_reaches(&members);
    members.all_home(&reaches, cards)
}

pub fn book_ok(w: &[u32], names: &[u32; 64], k: &[u32]) -> bool
    requires { (Valid w.now) × (Copied names.now (identifiers (read w.now))) × (book_size ≤ length k.now) }
    ensures { result ≡ book_ok (identifiers (read w.now)) k.now }
{
    let n = w[1];
    let m = k[0];
    if MOST_CARDS < m {
        return false;
    }
    if !marks_ok(k, n) {
        return false;
    }
    let cards = Cards {
        words: k,
        count: m as usize,
    };
    let end = CARDS_AT + CARD_WORDS * cards.count;
    if !all_zero(&k[end..BOOK_WORDS]) {
        return false;
    }
    if !machines_differ(&cards) {
        return false;
    }
    homes_ok(w, &cards, n, names)
}
