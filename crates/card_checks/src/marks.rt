// The marks: words 1 to 64, 1 for each member.
ghost use Rattle.std.specs.Prelude.{◌≡◌, ◌&&◌, true, not, ◌≤◌, nat_lt, nat_eq, fold, length, set};
ghost use Rattle.lists.specs.Basics.{every};
ghost use Rattle.protocol.specs.Record.{most_nodes};
ghost use Rattle.protocol.specs.Cards.{book_size, marks_in, marks_ok};

use protocol::form::{CARDS_AT, MARKS_AT};
use wellformed::all_zero;

// Whether every word of the part is 0 or 1.
fn all_bits(part: &[u32]) -> bool
    ensures { result ≡ fold (λ ok x. ok && nat_lt x 2) true part.now }
{
    part.iter().fold(true, |ok, x| ok & (*x < 2))
}

// Marks of a ring of n nodes: each 0 or 1, at least one of them 1, and none from n on.
pub(crate) fn marks_ok(k: &[u32], n: u32) -> bool
    requires { (n ≤ most_nodes) × (book_size ≤ length k.now) }
    ensures { result ≡ marks_ok n (marks_in k.now) }
{
    let end = MARKS_AT + (n as usize);
    let marks = &k[MARKS_AT..CARDS_AT];
    all_bits(marks) & !all_zero(marks) & all_zero(&k[end..CARDS_AT])
}

// Whether a node other than h is marked. (A fold: `any` would stop at the first, and so not be vectorised.)
pub fn is_marked_besides(marks: &[u32], h: usize) -> bool
    ensures { result ≡ not (every (λ x. nat_eq x 0) (set marks.now h 0)) }
{
    marks
        .iter()
        .enumerate()
        .fold(false, |any, (i, mark)| any | ((i != h) & (*mark != 0)))
}
