// A match over the kinds 1 to 14 picks the handler. (No other kind is well formed.) No table of functions: the numbers are the document's, and a
// JOIN looks at one row more than the others. (p, h, g and m are no struct: it would be made in steps' deliver and opened in each rule, and
// Kinds.antt, with which each rule is held equal, has them one by one. So it is with p and h in routing.)
#![tactic(auto)]

ghost use Rattle.std.specs.Prelude.{◌≡◌};
ghost use Rattle.protocol.specs.Kinds.{handle as handle_spec};

use protocol::{Decision, Message, Refusal, Row, kinds};

// What t does with m. Only a JOIN reads g.
pub fn handle(p: u32, h: Row, g: Row, m: Message) -> Result<Decision, Refusal>
    ensures { result ≡ handle_spec p h g m }
{
    match m.kind {
        kinds::LOOKUP => routing::lookup(p, h, m),
        kinds::JOIN => joins::join(p, h, g, m),
        kinds::JOINRETRY => joins::join_retry(h, m),
        kinds::JOINPOINT => joins::join_point(h, m),
        kinds::NEWSUCC => joins::new_succ(h, m),
        kinds::NEWSUCCACK => joins::new_succ_ack(h, m),
        kinds::JOINDONE => joins::join_done(h, m),
        kinds::LEAVEREQ => leaves::leave_req(h, m),
        kinds::LEAVERETRY => leaves::leave_retry(h, m),
        kinds::LEAVEGRANT => leaves::leave_grant(h, m),
        kinds::LEAVEPOINT => leaves::leave_point(h, m),
        kinds::UPDATESUCC => leaves::update_succ(h, m),
        kinds::STOPFORWARD => leaves::stop_forward(h, m),
        kinds::LEAVEDONE => leaves::leave_done(h, m),
        _ => Err(Refusal::NotExpected),
    }
}
