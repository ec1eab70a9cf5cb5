// Who founds a ring, and the row that it then has.
ghost use Rattle.std.specs.Prelude.{◌≡◌};
ghost use Rattle.protocol.specs.Fresh.{alone, founder_of, smallest as smallest_spec};

use protocol::form::NONE;
use protocol::{Row, states};

// The node with the smallest identifier, the first of several; 0 where there is none.
fn smallest(identifiers: &[u32]) -> usize
    ensures { result ≡ smallest_spec identifiers.now }
{
    let mut node = 0;
    for i in 1..identifiers.len() {
        if identifiers[i] < identifiers[node] {
            node = i;
        }
    }
    node
}

// The node that the caller means; one that is named need not be there.
pub fn founding_node(founder: Option<u32>, identifiers: &[u32]) -> usize
    ensures { result ≡ founder_of founder identifiers.now }
{
    match founder {
        None => smallest(identifiers),
        Some(node) => node as usize,
    }
}

// The row of the only node of a ring, which comes before and after itself.
pub fn alone_row(node: u32, identifier: u32) -> Row
    ensures { result ≡ alone node identifier }
{
    Row {
        identifier,
        state: states::INSIDE,
        lock: 0,
        flag: 0,
        pred: node,
        succ: node,
        oldpred: NONE,
    }
}
