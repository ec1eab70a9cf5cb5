// A row and a message as the words of a record, a card as those of a card slice, and an answer as those that C and a line of `ringrun` get, in their
// order.
ghost use Rattle.std.specs.Prelude.{◌≡◌};
ghost use Rattle.protocol.specs.Record.{row_words, message_words};
ghost use Rattle.protocol.specs.Cards.{card_words};
ghost use Rattle.protocol.specs.Answers.{answer_words};

use crate::form::{ANSWER_WORDS, CARD_WORDS, MESSAGE_WORDS, ROW_WORDS};
use crate::{Answer, Card, Message, Row, answer_kinds};

impl From<Row> for [u32; ROW_WORDS] {
    ghost from_gives = { λ h words. words ≡ row_words h };

    fn from(h: Row) -> [u32; ROW_WORDS] {
        [
            h.identifier,
            h.state,
            h.lock,
            h.flag,
            h.pred,
            h.succ,
            h.oldpred,
        ]
    }
}

impl From<Message> for [u32; MESSAGE_WORDS] {
    ghost from_gives = { λ m words. words ≡ message_words m };

    fn from(m: Message) -> [u32; MESSAGE_WORDS] {
        [m.kind, m.from, m.to, m.a, m.b, m.hops]
    }
}

impl From<Card> for [u32; CARD_WORDS] {
    ghost from_gives = { λ c words. words ≡ card_words c };

    fn from(c: Card) -> [u32; CARD_WORDS] {
        [c.machine, c.revision, c.price, c.hub]
    }
}

// 'kind, hub, number, ticket, hops'; what an answer does not name is 0.
impl From<Answer> for [u32; ANSWER_WORDS] {
    ghost from_gives = { λ a words. words ≡ answer_words a };

    #[tactic(auto, unfolding(crate::specs::Answers::answer_words))]
    fn from(a: Answer) -> [u32; ANSWER_WORDS] {
        match a {
            Answer::Quiet => [answer_kinds::QUIET, 0, 0, 0, 0],
            Answer::Found {
                hub,
                number,
                ticket,
                hops,
            } => [answer_kinds::FOUND, hub, number, ticket, hops],
            Answer::Entered(hub) => [answer_kinds::ENTERED, hub, 0, 0, 0],
            Answer::Gone(hub) => [answer_kinds::GONE, hub, 0, 0, 0],
            Answer::JoinTurnedAway(hub) => [answer_kinds::JOIN_TURNED_AWAY, hub, 0, 0, 0],
            Answer::LeaveTurnedAway(hub) => [answer_kinds::LEAVE_TURNED_AWAY, hub, 0, 0, 0],
            Answer::Joined(hub) => [answer_kinds::JOINED, hub, 0, 0, 0],
            Answer::Left(hub) => [answer_kinds::LEFT, hub, 0, 0, 0],
        }
    }
}
