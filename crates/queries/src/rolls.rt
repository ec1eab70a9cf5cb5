// The roll call: 'A roll call from a hub is that hub followed by the roll of its successor, until the start returns'.
ghost use Rattle.std.specs.Prelude.{◌≡◌, List, ℕ, ◌+◌, ◌≤◌, length};
ghost use Rattle.protocol.specs.Record.{most_nodes, read};
ghost use Rattle.protocol.specs.Calls.{roll, roll_call, numbered, roll_numbers};
ghost use Rattle.layout.specs.Form.{Valid};
ghost use Rattle.queries.specs.Rolls.{prepended, gathered, handed};

use arrayvec::ArrayVec;
use protocol::Refusal;
use protocol::form::NONE;
use record::row_of;
use routing::in_ring;

// Whether following succ from a node on comes back to the start, where at most so many nodes are left to pass. They go behind those that were passed
// before. (It ends by calling itself, and the compiler makes a loop of that: the stack that include/ring.h promises rests on it, and tests/c/run looks
// for functions that call themselves.)
fn comes_back(w: &[u32], start: u32, left: u32, node: u32, passed: &mut ArrayVec<u32, 64>) -> bool
    requires { (Valid w.now) × (length passed.old.items + left ≤ most_nodes) }
    ensures { prepended passed.old.items (roll (read w.now) start left node) ≡ gathered passed.new.items result }
{
    if left == 0 {
        return false;
    }
    passed.push(node);
    let next = row_of(w, node).succ;
    if next == start {
        return true;
    }
    if next == NONE {
        return false;
    }
    comes_back(w, start, left - 1, next, passed)
}

// The nodes around the ring from a node on. Refused where there is no such node (4), where it is not in the ring (5), and where succ does not lead back to
// it within as many nodes as there are (16). By them it is known what a roll call leaves in any output, of words or of bytes.
pub fn around(w: &[u32], node: u32) -> Result<ArrayVec<u32, 64>, Refusal>
    ensures { (out : List ℕ) → roll_call w.now node out ≡ handed out result }
{
    wellformed::questions(w)?;
    let n = w[1];
    if n <= node {
        return Err(Refusal::NoHub);
    }
    if !in_ring(row_of(w, node)) {
        return Err(Refusal::NotInRing);
    }
    let mut passed = ArrayVec::new();
    if !comes_back(w, node, n, node, &mut passed) {
        return Err(Refusal::NoWayRound);
    }
    Ok(passed)
}

// The nodes around the ring from a node on, into the output; words of the output behind them keep their content.
pub fn roll_call(w: &[u32], node: u32, output: &mut [u32]) -> Result<u32, Refusal>
    ensures { (roll_call w.now node output.old ≡ record { outcome = result; output = output.new })
        × (roll_numbers w.now node output.old ≡ numbered output.new result) }
{
    let roll = around(w, node)?;
    let nodes = roll.as_slice();
    if output.len() < nodes.len() {
        return Err(Refusal::OutputShort);
    }
    output[..nodes.len()].copy_from_slice(nodes);
    Ok(nodes.len() as u32)
}
