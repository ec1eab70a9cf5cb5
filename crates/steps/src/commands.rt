// 1 join, 2 leave, 3 deliver. (Each asks its own questions, in the document's order and with the number of each beside it, so that it can be held
// against the document line by line; that some begin alike is not said once more elsewhere.)
ghost use Rattle.std.specs.Prelude.{◌≡◌, ◌<◌};
ghost use Rattle.protocol.specs.Record.{count_in, read};
ghost use Rattle.protocol.specs.Step.{join as join_spec, leave as leave_spec, deliver as deliver_spec};
ghost use Rattle.protocol.specs.Calls.{written};
ghost use Rattle.layout.specs.Form.{Valid};
ghost use Rattle.steps.specs.Questions.{sending};

use crate::apply::settle;
use protocol::form::{MESSAGE_WORDS, MESSAGES_AT, MOST_MESSAGES};
use protocol::{Answer, Decision, Message, Refusal, Row, kinds, states};
use routing::{in_ring, note};

// How join and leave end: x's row becomes h and the message goes, if there is room for it ('m below 256? 11').
fn sent(w: &mut [u32], x: u32, h: Row, told: Message) -> Result<Answer, Refusal>
    requires { (Valid w.old) × (x < count_in w.old) }
    ensures { written w.old (sending (read w.old) x h told) ≡ record { outcome = result; slice = w.new } }
{
    let m = w[2];
    if m < MOST_MESSAGES {
        return Ok(settle(w, m, x, Decision::Send(h, told, Answer::Quiet)));
    }
    Err(Refusal::MessagesFull)
}

// 'x becomes joining, locked; sends JOIN (a = x) to y.'
pub(crate) fn join(w: &mut [u32], x: u32, y: u32) -> Result<Answer, Refusal>
    requires { Valid w.old }
    ensures { written w.old (join_spec (read w.old) x y) ≡ record { outcome = result; slice = w.new } }
{
    let n = w[1];
    let nodes = (x < n) & (y < n);
    if !nodes {
        return Err(Refusal::NoHub);
    }
    let h = record::row_of(w, x);
    if h.state != states::OUTSIDE {
        return Err(Refusal::NotOutside);
    }
    if !in_ring(record::row_of(w, y)) {
        return Err(Refusal::NotInRing);
    }
    let joining = Row {
        state: states::JOINING,
        lock: 1,
        ..h
    };
    sent(w, x, joining, note(kinds::JOIN, x, y, x))
}

// 'x gets state 3, locked; sends LEAVEREQ to its succ.'
pub(crate) fn leave(w: &mut [u32], x: u32) -> Result<Answer, Refusal>
    requires { Valid w.old }
    ensures { written w.old (leave_spec (read w.old) x) ≡ record { outcome = result; slice = w.new } }
{
    if w[1] <= x {
        return Err(Refusal::NoHub);
    }
    let h = record::row_of(w, x);
    if !in_ring(h) {
        return Err(Refusal::NotInRing);
    }
    if h.lock != 0 {
        return Err(Refusal::Locked);
    }
    if h.succ == x {
        return Err(Refusal::LastHub);
    }
    let leaving = Row {
        state: states::WANTING_TO_LEAVE,
        lock: 1,
        ..h
    };
    sent(w, x, leaving, note(kinds::LEAVEREQ, x, h.succ, 0))
}

// 'the oldest message with that from and to', at its receiver.
pub(crate) fn deliver(w: &mut [u32], x: u32, y: u32) -> Result<Answer, Refusal>
    requires { Valid w.old }
    ensures { written w.old (deliver_spec (read w.old) x y) ≡ record { outcome = result; slice = w.new } }
{
    let n = w[1];
    let m = w[2];
    let nodes = (x < n) & (y < n);
    if !nodes {
        return Err(Refusal::NoHub);
    }
    if let Some(j) = record::find(w, x, y) {
        let u = record::message_at(w, MESSAGES_AT + MESSAGE_WORDS * (j as usize));
        let h = record::row_of(w, y);
        let p = record::identifier_of(w, h.pred);
        let g = record::row_of(w, u.a);
        let d = handlers::handle(p, h, g, u)?;
        record::remove(w, m, j);
        return Ok(settle(w, m - 1, y, d));
    }
    Err(Refusal::NoMessage)
}
