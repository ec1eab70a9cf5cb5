// Kind 1, LOOKUP (a is the key, b the ticket).
ghost use Rattle.std.specs.Prelude.{◌≡◌, Ok};
ghost use Rattle.protocol.specs.Kinds.{grown as grown_spec, lookup_routed, lookup as lookup_spec};

use crate::messages::question;
use crate::rows::in_ring;
use crate::rules::required;
use crate::ways::route;
use protocol::{Answer, Decision, Message, Refusal, Route, Row};

// Hops count the links used so far, so what a hub sent to itself adds nothing. At 65535 they stay,
// and above it too, where no hops of a well formed record are; so `min` would not say it.
fn grown(m: Message) -> u32
    ensures { result ≡ grown_spec m }
{
    if m.from == m.to || m.hops >= 65535 {
        return m.hops;
    }
    m.hops + 1
}

// 'Routed; the owner answers found.'
fn lookup_routed(h: Row, m: Message, way: Route) -> Decision
    ensures { Ok result ≡ lookup_routed h m way }
{
    let hops = grown(m);
    match way {
        Route::Own => {
            let found = Answer::Found {
                hub: m.to,
                number: m.a,
                ticket: m.b,
                hops,
            };
            Decision::Reply(h, found)
        }
        Route::To(z) => Decision::Send(h, question(m.to, z, m.a, m.b, hops), Answer::Quiet),
    }
}

// 1 LOOKUP: 'state 2 to 4.'
pub fn lookup(p: u32, h: Row, m: Message) -> Result<Decision, Refusal>
    ensures { result ≡ lookup_spec p h m }
{
    required(in_ring(h))?;
    Ok(lookup_routed(h, m, route(p, h, m.from, m.a)))
}
