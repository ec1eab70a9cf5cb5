ghost use Rattle.std.specs.Prelude.{◌≡◌};
ghost use Rattle.protocol.specs.WellFormed.{pointers_ok, lock_ok, flag_ok, row_ok};

use lists::pick;
use protocol::form::NONE;
use protocol::{Row, states};

fn pointers_ok(n: u32, h: Row) -> bool
    ensures { result ≡ pointers_ok n h }
{
    let unlinked = (h.pred == NONE) & (h.succ == NONE);
    let linked = (h.state <= states::LEAVING) & (h.pred < n) & (h.succ < n);
    pick(h.state < states::INSIDE, unlinked, linked)
}

fn lock_ok(h: Row) -> bool
    ensures { result ≡ lock_ok h }
{
    let fixed = pick(h.state == states::OUTSIDE, h.lock == 0, h.lock == 1);
    pick(h.state == states::INSIDE, h.lock < 2, fixed)
}

fn flag_ok(n: u32, h: Row) -> bool
    ensures { result ≡ flag_ok n h }
{
    let raised = (h.flag == 1) & (h.state == states::INSIDE) & (h.lock == 1) & (h.oldpred < n);
    pick(h.flag == 0, h.oldpred == NONE, raised)
}

// A row of a ring of n nodes.
pub fn row_ok(n: u32, h: Row) -> bool
    ensures { result ≡ row_ok n h }
{
    pointers_ok(n, h) & lock_ok(h) & flag_ok(n, h)
}
