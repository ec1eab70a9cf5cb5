// The owner query: 'does some hub hold the number? 15 (the lowest hub number if several).'
ghost use Rattle.std.specs.Prelude.{◌≡◌, ◌<◌, MatchOption};
ghost use Rattle.protocol.specs.Record.{count_in, read};
ghost use Rattle.protocol.specs.Membership.{holds as holds_spec};
ghost use Rattle.protocol.specs.Calls.{lowest_holder, owner_call};
ghost use Rattle.layout.specs.Form.{Valid};

use protocol::Refusal;
use record::{identifier_of, row_of};
use routing::{covers, responsible};

// 'A hub holds v when its state is 2 or 3 and v is in (pred, its identifier].' The state is looked at first, since it spares reading
// the pred of a node that can hold nothing.
fn holds(w: &[u32], node: u32, v: u32) -> bool
    requires { Valid w.now }
    ensures { result ≡ holds_spec (read w.now) node v }
{
    let h = row_of(w, node);
    if !responsible(h) {
        return false;
    }
    let p = identifier_of(w, h.pred);
    covers(p, h, v)
}

// The lowest node that holds v.
fn first_holder(w: &[u32], v: u32) -> Option<u32>
    requires { Valid w.now }
    ensures { MatchOption result (lowest_holder (read w.now) v ≡ count_in w.now) (λ node. (node ≡ lowest_holder (read w.now) v) × (node < count_in w.now)) }
{
    (0..w[1]).find(|node| holds(w, *node, v))
}

// The node that holds a number.
pub fn owner(w: &[u32], number: u32) -> Result<u32, Refusal>
    ensures { result ≡ owner_call w.now number }
{
    wellformed::questions(w)?;
    first_holder(w, number).ok_or(Refusal::NoHolder)
}
