// What rules of several kinds share (document 01: 'Each kind below names what t, the receiver, must be.').
ghost use Rattle.std.specs.Prelude.{◌≡◌, ◌&&◌, nat_eq, Ok, Err};
ghost use Rattle.lists.specs.Basics.{when◌then◌else◌};
ghost use Rattle.protocol.specs.declared.Decision.TheVariants.{Reply, Send};
ghost use Rattle.protocol.specs.declared.Answer.TheVariants.{Quiet};
ghost use Rattle.protocol.specs.declared.refusal.Refusal.TheVariants.{NotExpected};
ghost use Rattle.protocol.specs.Names.{INSIDE};
ghost use Rattle.protocol.specs.Routing.{responsible as responsible_spec};
ghost use Rattle.protocol.specs.Kinds.{with_lock, with_succ};

use crate::rows::responsible;
use protocol::{Answer, Decision, Message, Refusal, Row, states};

// 'Receiver, and hub a for JOIN, as required? 10.'
pub fn required(test: bool) -> Result<(), Refusal>
    ensures { result ≡ (when test then Ok tt else Err NotExpected) }
{
    if test {
        return Ok(());
    }
    Err(Refusal::NotExpected)
}

// Kinds 7 and 14: 'state 2, lock 1, flag 0. Lock 0.'
pub fn unlocked(h: Row, answer: Answer) -> Result<Decision, Refusal>
    ensures { result ≡ (when nat_eq h.state INSIDE && nat_eq h.lock 1 && nat_eq h.flag 0 then Ok (Reply (with_lock h 0) answer) else Err NotExpected) }
{
    required(matches!(h.state, states::INSIDE) && h.lock == 1 && h.flag == 0)?;
    Ok(Decision::Reply(Row { lock: 0, ..h }, answer))
}

// Kinds 5 and 12: 'state 2 or 3', then a message to the old succ, and 'succ = f'.
pub fn relinked(h: Row, f: u32, told: Message) -> Result<Decision, Refusal>
    ensures { result ≡ (when responsible_spec h then Ok (Send (with_succ h f) told Quiet) else Err NotExpected) }
{
    required(responsible(h))?;
    Ok(Decision::Send(Row { succ: f, ..h }, told, Answer::Quiet))
}
