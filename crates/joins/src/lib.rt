// Kinds 2 to 7: how a node enters the ring. 'Receiver, and hub a for JOIN, as required? 10.'
#![tactic(auto)]

ghost use Rattle.std.specs.Prelude.{◌≡◌, Ok};
ghost use Rattle.protocol.specs.Kinds.{join_retried, join_routed, join as join_spec, join_retry, join_point, new_succ, new_succ_ack, join_done};

use protocol::form::NONE;
use protocol::{Answer, Decision, Message, Refusal, Route, Row, kinds, states};
use routing::{note, relinked, required, route, unlocked};

// 'JOINRETRY to a': the newcomer is turned away, and may ask again.
fn join_retried(h: Row, m: Message) -> Decision
    ensures { Ok result ≡ join_retried h m }
{
    Decision::Send(h, note(kinds::JOINRETRY, m.to, m.a, 0), Answer::Quiet)
}

// 'an owner with lock 1 sends JOINRETRY to a; with lock 0 it locks, sets the flag, oldpred = pred,
// pred = a, sends JOINPOINT (a = oldpred) to hub a and answers entered.'
fn join_routed(h: Row, m: Message, way: Route) -> Decision
    ensures { Ok result ≡ join_routed h m way }
{
    match way {
        Route::Own => {
            if h.lock == 1 {
                return join_retried(h, m);
            }
            let admitting = Row {
                lock: 1,
                flag: 1,
                pred: m.a,
                oldpred: h.pred,
                ..h
            };
            Decision::Send(
                admitting,
                note(kinds::JOINPOINT, m.to, m.a, h.pred),
                Answer::Entered(m.a),
            )
        }
        Route::To(z) => Decision::Send(h, note(kinds::JOIN, m.to, z, m.a), Answer::Quiet),
    }
}

// 2 JOIN: 'hub a in state 1. At t in state 0 or 1: JOINRETRY to a. Otherwise routed by a's
// identifier'.
pub fn join(p: u32, h: Row, g: Row, m: Message) -> Result<Decision, Refusal>
    ensures { result ≡ join_spec p h g m }
{
    required(matches!(g.state, states::JOINING))?;
    if matches!(h.state, states::OUTSIDE | states::JOINING) {
        return Ok(join_retried(h, m));
    }
    Ok(join_routed(h, m, route(p, h, m.from, g.identifier)))
}

// 3 JOINRETRY: 'state 1. State 0, lock 0. Join turned away.' Kind 9 has other states and another
// answer, which is all that is said here, so one function for both would be no plainer.
pub fn join_retry(h: Row, m: Message) -> Result<Decision, Refusal>
    ensures { result ≡ join_retry h m }
{
    required(matches!(h.state, states::JOINING))?;
    let outside = Row {
        state: states::OUTSIDE,
        lock: 0,
        ..h
    };
    Ok(Decision::Reply(outside, Answer::JoinTurnedAway(m.to)))
}

// 4 JOINPOINT: 'state 1. State 2, pred = a, succ = f; NEWSUCC to a.' It stays locked till JOINDONE.
pub fn join_point(h: Row, m: Message) -> Result<Decision, Refusal>
    ensures { result ≡ join_point h m }
{
    required(matches!(h.state, states::JOINING))?;
    let inside = Row {
        state: states::INSIDE,
        pred: m.a,
        succ: m.from,
        ..h
    };
    Ok(Decision::Send(inside, note(kinds::NEWSUCC, m.to, m.a, 0), Answer::Quiet))
}

// 5 NEWSUCC: 'state 2 or 3. NEWSUCCACK (a = f) to succ; then succ = f.' It goes to the old succ.
pub fn new_succ(h: Row, m: Message) -> Result<Decision, Refusal>
    ensures { result ≡ new_succ h m }
{
    relinked(h, m.from, note(kinds::NEWSUCCACK, m.to, h.succ, m.from))
}

// 6 NEWSUCCACK: 'flag 1. Flag 0, oldpred none, lock 0; JOINDONE to a.' This is the last that
// oldpred sends to t as its succ, so from now on nothing is to be sent on to pred.
pub fn new_succ_ack(h: Row, m: Message) -> Result<Decision, Refusal>
    ensures { result ≡ new_succ_ack h m }
{
    required(h.flag == 1)?;
    let admitted = Row {
        lock: 0,
        flag: 0,
        oldpred: NONE,
        ..h
    };
    Ok(Decision::Send(admitted, note(kinds::JOINDONE, m.to, m.a, 0), Answer::Quiet))
}

// 7 JOINDONE: 'state 2, lock 1, flag 0. Lock 0. Joined.'
pub fn join_done(h: Row, m: Message) -> Result<Decision, Refusal>
    ensures { result ≡ join_done h m }
{
    unlocked(h, Answer::Joined(m.to))
}
