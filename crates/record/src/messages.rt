ghost use Rattle.std.specs.Prelude.{◌≡◌, ◌+◌, ◌≤◌, ◌<◌, length, MatchOption};
ghost use Rattle.lists.specs.Splice.{closed_up};
ghost use Rattle.protocol.specs.Record.{most_messages, message_size, record_size, messages_in, message_from, read};
ghost use Rattle.protocol.specs.Step.{oldest};
ghost use Rattle.layout.specs.Edits.{pushed, removed};

use protocol::Message;
use protocol::form::{MESSAGE_WORDS, MESSAGES_AT};

// The message whose first word is at a place. (Each word by its position: an array for a From comes out of the slice by a conversion and an
// unwrap, which is longer.)
pub fn message_at(w: &[u32], at: usize) -> Message
    requires { at + message_size ≤ length w.now }
    ensures { result ≡ message_from w.now at }
{
    Message {
        kind: w[at],
        from: w[at + 1],
        to: w[at + 2],
        a: w[at + 3],
        b: w[at + 4],
        hops: w[at + 5],
    }
}

// The place of the oldest message from x to y.
pub fn find(w: &[u32], x: u32, y: u32) -> Option<u32>
    requires { (record_size ≤ length w.now) × (messages_in w.now ≤ most_messages) }
    ensures { MatchOption result (oldest (read w.now) x y ≡ messages_in w.now) (λ j. (j ≡ oldest (read w.now) x y) × (j < messages_in w.now)) }
{
    (0..w[2]).find(|j| {
        let at = MESSAGES_AT + MESSAGE_WORDS * (*j as usize);
        (w[at + 1] == x) & (w[at + 2] == y)
    })
}

// Puts a message behind the n that are there.
pub fn push(w: &mut [u32], n: u32, m: Message)
    requires { (n < most_messages) × (record_size ≤ length w.old) }
    ensures { w.new ≡ pushed w.old n m }
{
    let at = MESSAGES_AT + MESSAGE_WORDS * (n as usize);
    w[at..at + MESSAGE_WORDS].copy_from_slice(&<[u32; MESSAGE_WORDS]>::from(m));
    w[2] = n + 1;
}

// Closes the gap of one message at the start of the part; behind the n words that come forward there is 0.
fn close_up(part: &mut [u32], n: usize)
    requires { n + message_size ≤ length part.old }
    ensures { part.new ≡ closed_up message_size part.old n }
{
    part.copy_within(MESSAGE_WORDS..MESSAGE_WORDS + n, 0);
    part[n..n + MESSAGE_WORDS].fill(0);
}

// Takes message j of n out; the later ones move up.
pub fn remove(w: &mut [u32], n: u32, j: u32)
    requires { (j < n) × (n ≤ most_messages) × (record_size ≤ length w.old) }
    ensures { w.new ≡ removed w.old n j }
{
    let at = MESSAGES_AT + MESSAGE_WORDS * (j as usize);
    let len = MESSAGE_WORDS * ((n - 1 - j) as usize);
    close_up(&mut w[at..], len);
    w[2] = n - 1;
}
