// What a row says of its node.
ghost use Rattle.std.specs.Prelude.{◌≡◌};
ghost use Rattle.protocol.specs.Routing.{in_ring, responsible as responsible_spec};

use protocol::{Row, states};

// 'state 2 to 4': inside, wanting to leave, or leaving.
pub fn in_ring(h: Row) -> bool
    ensures { result ≡ in_ring h }
{
    matches!(h.state, states::INSIDE..=states::LEAVING)
}

// 'state 2 or 3': in the ring and not leaving yet.
pub fn responsible(h: Row) -> bool
    ensures { result ≡ responsible_spec h }
{
    matches!(h.state, states::INSIDE | states::WANTING_TO_LEAVE)
}
