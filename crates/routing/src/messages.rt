// The messages that nodes send.
ghost use Rattle.std.specs.Prelude.{◌≡◌};
ghost use Rattle.protocol.specs.Kinds.{note as note_spec, question as question_spec};

use protocol::{Message, kinds};

// A LOOKUP: 'a number, b ticket'.
pub fn question(from: u32, to: u32, v: u32, ticket: u32, hops: u32) -> Message
    ensures { result ≡ question_spec from to v ticket hops }
{
    Message {
        kind: kinds::LOOKUP,
        from,
        to,
        a: v,
        b: ticket,
        hops,
    }
}

// A message of any other kind: 'other message fields are 0'.
pub fn note(kind: u32, from: u32, to: u32, a: u32) -> Message
    ensures { result ≡ note_spec kind from to a }
{
    Message {
        kind,
        from,
        to,
        a,
        b: 0,
        hops: 0,
    }
}
