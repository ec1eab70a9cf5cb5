// The hub row: 'handed out as the seven words inside the caller's record'.
ghost use Rattle.std.specs.Prelude.{◌≡◌};
ghost use Rattle.protocol.specs.Calls.{row_call};
ghost use Rattle.layout.specs.Form.{Valid};

use protocol::form::{ROW_WORDS, ROWS_AT};

// The words of a node, or an empty part where there is no such node.
fn row_part(w: &[u32], node: u32) -> &[u32]
    requires { Valid w.now }
    ensures { result.now ≡ row_call w.now node }
{
    if node < w[1] {
        let at = ROWS_AT + ROW_WORDS * (node as usize);
        let end = at + ROW_WORDS;
        return &w[at..end];
    }
    &w[0..0]
}

// 'The hub row has no number to return: on a no to 1, 2 or hub below n it hands out an empty part.'
pub fn hub_row(w: &[u32], node: u32) -> &[u32]
    ensures { result.now ≡ row_call w.now node }
{
    match wellformed::questions(w) {
        Err(_) => &w[0..0],
        Ok(()) => row_part(w, node),
    }
}
