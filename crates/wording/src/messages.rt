// Messages in flight (docs/INSPECT.md, 'Answers').
use crate::names::kind_name;
use protocol::form::MESSAGE_WORDS;
use protocol::{Message, kinds};
use std::fmt;

#[derive(Clone, Copy)]
pub struct Sent(pub Message);

impl fmt::Display for Sent {
    fn fmt<W: fmt::Write>(&self, f: &mut fmt::Formatter<W>) -> fmt::Result {
        let Message {
            kind,
            from,
            to,
            a,
            b,
            hops,
        } = self.0;
        write!(f, "{} from {from} to {to}", kind_name(kind))?;
        match kind {
            kinds::LOOKUP => write!(f, ": number {a}, ticket {b}, hops {hops}"),
            kinds::JOIN | kinds::JOINPOINT | kinds::NEWSUCCACK | kinds::LEAVEPOINT => {
                write!(f, ": hub {a}")
            }
            _ => Ok(()),
        }
    }
}

// (A From of the six words would serve this place alone.) The words of all messages that wait, six of each: how many there are, how many of them are
// questions, and a line for each.
#[derive(Clone, Copy)]
pub struct Waiting<'a>(pub &'a [u32]);

impl fmt::Display for Waiting<'_> {
    fn fmt<W: fmt::Write>(&self, f: &mut fmt::Formatter<W>) -> fmt::Result {
        let (messages, _) = self.0.as_chunks::<MESSAGE_WORDS>();
        let questions = messages.iter().filter(|m| m[0] == kinds::LOOKUP).count();
        write!(f, "messages {}, questions {questions}", messages.len())?;
        for message in messages {
            let [kind, from, to, a, b, hops] = *message;
            let message = Message {
                kind,
                from,
                to,
                a,
                b,
                hops,
            };
            write!(f, "\n{}", Sent(message))?;
        }
        Ok(())
    }
}
