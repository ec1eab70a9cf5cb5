// The tests in turn.
ghost use Rattle.std.specs.Prelude.{◌≡◌, ◌≤◌, length};
ghost use Rattle.protocol.specs.Record.{record_size};
ghost use Rattle.protocol.specs.WellFormed.{header_ok, well_formed};

use crate::content::Headed;
use protocol::form::{FORM, MOST_MESSAGES, MOST_NODES};

fn header_ok(w: &[u32]) -> bool
    requires { record_size ≤ length w.now }
    ensures { result ≡ header_ok w.now }
{
    (w[0] == FORM) & (1 <= w[1]) & (w[1] <= MOST_NODES) & (w[2] <= MOST_MESSAGES)
}

// The test that a caller's mistake meets first costs no more than itself.
pub fn well_formed(w: &[u32]) -> bool
    requires { record_size ≤ length w.now }
    ensures { result ≡ well_formed w.now }
{
    if !header_ok(w) {
        return false;
    }
    let record = Headed {
        words: w,
        nodes: w[1],
        messages: w[2],
    };
    if !record.nodes_ok() {
        return false;
    }
    if !record.messages_ok() {
        return false;
    }
    record.unused_ok()
}
