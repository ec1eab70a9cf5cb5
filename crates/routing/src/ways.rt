// Document 01, 'Routing at hub t'. ('In a range, pred means that hub's identifier': p.)
ghost use Rattle.std.specs.Prelude.{◌≡◌};
ghost use Rattle.protocol.specs.Routing.{covers as covers_spec, onward as onward_spec, route as route_spec};

use protocol::{Route, Row, states};

// Whether v is in (pred, t's identifier].
pub fn covers(p: u32, h: Row, v: u32) -> bool
    ensures { result ≡ covers_spec p h v }
{
    clockwise::in_interval(p, h.identifier, v)
}

// 'in state 4, send on to succ. Else if the number is in (pred, t's identifier], t owns it. Else send
// on to succ.' In state 4 t owns nothing: its LEAVEPOINT is ahead on the link to succ, which will own
// the keys by the time they arrive.
pub fn onward(p: u32, h: Row, v: u32) -> Route
    ensures { result ≡ onward_spec p h v }
{
    match h.state {
        states::LEAVING => Route::To(h.succ),
        _ if covers(p, h, v) => Route::Own,
        _ => Route::To(h.succ),
    }
}

// 'if the flag is set and the sender is oldpred, send on to pred. Else ..' Only oldpred still takes t
// for its succ, which the newcomer is, now t's pred. What the newcomer sends must not go back to it.
pub fn route(p: u32, h: Row, f: u32, v: u32) -> Route
    ensures { result ≡ route_spec p h f v }
{
    if h.flag == 1 && f == h.oldpred {
        return Route::To(h.pred);
    }
    onward(p, h, v)
}
