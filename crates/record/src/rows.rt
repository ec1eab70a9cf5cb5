ghost use Rattle.std.specs.Prelude.{◌≡◌, ◌+◌, ◌*◌, ◌≤◌, ◌<◌, length};
ghost use Rattle.std.proofs.lemmas.List.Edits.{sets};
ghost use Rattle.protocol.specs.Record.{most_nodes, row_size, row_start, record_size, count_in, row_words, row_from, read, row, identifier, outside};
ghost use Rattle.layout.specs.Edits.{row_put};

use protocol::form::{NONE, ROW_WORDS, ROWS_AT};
use protocol::{Row, states};

// The row whose first word is at a place. (Each word by its position, as in `message_at`.)
pub fn row_at(w: &[u32], at: usize) -> Row
    requires { at + row_size ≤ length w.now }
    ensures { result ≡ row_from w.now at }
{
    Row {
        identifier: w[at],
        state: w[at + 1],
        lock: w[at + 2],
        flag: w[at + 3],
        pred: w[at + 4],
        succ: w[at + 5],
        oldpred: w[at + 6],
    }
}

// A row of a node outside the ring: 'outside, unlocked, flag 0, all pointers none'.
pub fn outside_row(identifier: u32) -> Row
    ensures { result ≡ outside identifier }
{
    Row {
        identifier,
        state: states::OUTSIDE,
        lock: 0,
        flag: 0,
        pred: NONE,
        succ: NONE,
        oldpred: NONE,
    }
}

// The row of a node; a number that is no node's, such as 'none', counts as outside. (What is asked of w stands in each contract: w is the
// caller's slice, of any length, and an array reference or a struct in its place is a narrower type, which asks more of callers.)
pub fn row_of(w: &[u32], node: u32) -> Row
    requires { (record_size ≤ length w.now) × (count_in w.now ≤ most_nodes) }
    ensures { result ≡ row (read w.now) node }
{
    if node < w[1] {
        return row_at(w, ROWS_AT + ROW_WORDS * (node as usize));
    }
    outside_row(0)
}

// The identifier of a node; of a number that is no node's, such as 'none', 0.
pub fn identifier_of(w: &[u32], node: u32) -> u32
    requires { (record_size ≤ length w.now) × (count_in w.now ≤ most_nodes) }
    ensures { result ≡ identifier (read w.now) node }
{
    if node < w[1] {
        return w[ROWS_AT + ROW_WORDS * (node as usize)];
    }
    0
}

// The row's editor: it writes a row at the start of the part of the record that it is lent.
fn edit_row(part: &mut [u32], h: Row)
    requires { row_size ≤ length part.old }
    ensures { part.new ≡ sets part.old 0 (row_words h) }
{
    part[..ROW_WORDS].copy_from_slice(&<[u32; ROW_WORDS]>::from(h));
}

// Changes the words of one node, through the part of the record that starts with its row.
pub fn put_row(w: &mut [u32], node: u32, h: Row)
    requires { row_start node + row_size ≤ length w.old }
    ensures { w.new ≡ row_put w.old node h }
{
    let at = ROWS_AT + ROW_WORDS * (node as usize);
    edit_row(&mut w[at..], h);
}
