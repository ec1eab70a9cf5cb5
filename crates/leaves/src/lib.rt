// Kinds 8 to 14: how a node leaves the ring. 'Receiver .. as required? 10.'
#![tactic(auto)]

ghost use Rattle.std.specs.Prelude.{◌≡◌};
ghost use Rattle.protocol.specs.Kinds.{leave_req, leave_retry, leave_grant, leave_point, update_succ, stop_forward, leave_done};

use protocol::form::NONE;
use protocol::{Answer, Decision, Message, Refusal, Row, kinds, states};
use routing::{in_ring, note, relinked, required, unlocked};

// 8 LEAVEREQ: 'state 2 to 4. Lock 1: LEAVERETRY to f. Lock 0: lock, LEAVEGRANT to f.'
pub fn leave_req(h: Row, m: Message) -> Result<Decision, Refusal>
    ensures { result ≡ leave_req h m }
{
    required(in_ring(h))?;
    if h.lock == 1 {
        return Ok(Decision::Send(h, note(kinds::LEAVERETRY, m.to, m.from, 0), Answer::Quiet));
    }
    let granting = Row { lock: 1, ..h };
    Ok(Decision::Send(
        granting,
        note(kinds::LEAVEGRANT, m.to, m.from, 0),
        Answer::Quiet,
    ))
}

// 9 LEAVERETRY: 'state 3. State 2, lock 0. Leave turned away.' Kind 3 has other states and another
// answer, which is all that is said here, so one function for both would be no plainer.
pub fn leave_retry(h: Row, m: Message) -> Result<Decision, Refusal>
    ensures { result ≡ leave_retry h m }
{
    required(matches!(h.state, states::WANTING_TO_LEAVE))?;
    let staying = Row {
        state: states::INSIDE,
        lock: 0,
        ..h
    };
    Ok(Decision::Reply(staying, Answer::LeaveTurnedAway(m.to)))
}

// 10 LEAVEGRANT: 'state 3. State 4; LEAVEPOINT (a = pred) to f.' From now on t owns nothing.
pub fn leave_grant(h: Row, m: Message) -> Result<Decision, Refusal>
    ensures { result ≡ leave_grant h m }
{
    required(matches!(h.state, states::WANTING_TO_LEAVE))?;
    let leaving = Row {
        state: states::LEAVING,
        ..h
    };
    Ok(Decision::Send(
        leaving,
        note(kinds::LEAVEPOINT, m.to, m.from, h.pred),
        Answer::Quiet,
    ))
}

// 11 LEAVEPOINT: 'state 2, lock 1. pred = a; UPDATESUCC to a. Gone, hub f.' Now t owns what f owned.
pub fn leave_point(h: Row, m: Message) -> Result<Decision, Refusal>
    ensures { result ≡ leave_point h m }
{
    required(matches!(h.state, states::INSIDE) && h.lock == 1)?;
    let extended = Row { pred: m.a, ..h };
    Ok(Decision::Send(
        extended,
        note(kinds::UPDATESUCC, m.to, m.a, 0),
        Answer::Gone(m.from),
    ))
}

// 12 UPDATESUCC: 'state 2 or 3. STOPFORWARD to succ; then succ = f.' It goes to the old succ.
pub fn update_succ(h: Row, m: Message) -> Result<Decision, Refusal>
    ensures { result ≡ update_succ h m }
{
    relinked(h, m.from, note(kinds::STOPFORWARD, m.to, h.succ, 0))
}

// 13 STOPFORWARD: 'state 4. LEAVEDONE to succ; state 0, lock 0, pointers none. Left.'
pub fn stop_forward(h: Row, m: Message) -> Result<Decision, Refusal>
    ensures { result ≡ stop_forward h m }
{
    required(matches!(h.state, states::LEAVING))?;
    let outside = Row {
        state: states::OUTSIDE,
        lock: 0,
        pred: NONE,
        succ: NONE,
        oldpred: NONE,
        ..h
    };
    Ok(Decision::Send(
        outside,
        note(kinds::LEAVEDONE, m.to, h.succ, 0),
        Answer::Left(m.to),
    ))
}

// 14 LEAVEDONE: 'state 2, lock 1, flag 0. Lock 0.'
pub fn leave_done(h: Row, m: Message) -> Result<Decision, Refusal>
    ensures { result ≡ leave_done h m }
{
    unlocked(h, Answer::Quiet)
}
