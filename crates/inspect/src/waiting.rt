// The waiting messages, which no public call hands out: they are read where the record is well formed.
use protocol::Refusal;
use protocol::form::{MESSAGE_WORDS, MESSAGES_AT};
use wellformed::questions;
use wording::Waiting;

// The words of m messages. A record that is well formed has them all, so that nothing is cut.
fn message_words(w: &[u32], m: u32) -> &[u32] {
    let end = w.len().min(MESSAGES_AT + MESSAGE_WORDS * (m as usize));
    &w[MESSAGES_AT.min(end)..end]
}

pub fn waiting(w: &[u32]) -> Result<Waiting<'_>, Refusal> {
    questions(w)?;
    Ok(Waiting(message_words(w, w[2])))
}
