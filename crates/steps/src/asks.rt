// 0 ask: 'takes ticket = asked, adds 1 to asked, then routes with no sender and hops 0.'
ghost use Rattle.std.specs.Prelude.{◌≡◌, ◌<◌};
ghost use Rattle.protocol.specs.Record.{asked_in, read};
ghost use Rattle.protocol.specs.Step.{asking as asking_spec, ask as ask_spec};
ghost use Rattle.protocol.specs.Calls.{written};
ghost use Rattle.layout.specs.Form.{Valid};

use protocol::form::MOST_MESSAGES;
use protocol::{Answer, Refusal, Route};
use routing::{in_ring, onward, question};

// The question is answered at once, or sent on if there is room for it.
fn asking(w: &mut [u32], x: u32, v: u32, way: Route) -> Result<Answer, Refusal>
    requires { (Valid w.old) × (asked_in w.old < 4294967295) }
    ensures { written w.old (asking_spec (read w.old) x v way) ≡ record { outcome = result; slice = w.new } }
{
    let ticket = w[3];
    match way {
        Route::Own => {
            w[3] = ticket + 1;
            Ok(Answer::Found {
                hub: x,
                number: v,
                ticket,
                hops: 0,
            })
        }
        Route::To(z) => {
            let m = w[2];
            if m < MOST_MESSAGES {
                record::push(w, m, question(x, z, v, ticket, 0));
                w[3] = ticket + 1;
                return Ok(Answer::Quiet);
            }
            Err(Refusal::MessagesFull)
        }
    }
}

// On a record that has passed questions 1 and 2.
pub fn ask(w: &mut [u32], x: u32, v: u32) -> Result<Answer, Refusal>
    requires { Valid w.old }
    ensures { written w.old (ask_spec (read w.old) x v) ≡ record { outcome = result; slice = w.new } }
{
    if w[1] <= x {
        return Err(Refusal::NoHub);
    }
    let h = record::row_of(w, x);
    if !in_ring(h) {
        return Err(Refusal::NotInRing);
    }
    if w[3] < 4294967295 {
        let p = record::identifier_of(w, h.pred);
        return asking(w, x, v, onward(p, h, v));
    }
    Err(Refusal::TicketsUsedUp)
}
