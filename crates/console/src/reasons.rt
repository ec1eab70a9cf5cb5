// The system's word for why a call failed.
use std::fmt::Write;
use std::io::Error;
use texts::Text;

// The first bytes of the library's text for an error, which has the system's word and behind it the number, in brackets.
pub fn text_of(error: Error) -> Text<256> {
    let mut text = Text::new();
    let _ = write!(text, "{error}");
    text
}

// The word alone: what stands before the last bracket and the blank in front of it.
pub fn word(text: &[u8]) -> &[u8] {
    match text.iter().rposition(|b| *b == b'(') {
        Some(at) if at > 0 => &text[..at - 1],
        _ => text,
    }
}
