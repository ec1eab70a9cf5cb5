// What a line asks for that is no frame (docs/INSPECT.md): a word, and numbers behind it.
use crate::bounds::{FRAME_BYTES, KEPT_WORDS, MOST_PLACES};
use protocol::answer_kinds::REFUSAL;
use std::str;
use std::str::{FromStr, Split};

#[derive(Clone, Copy)]
pub enum Inquiry {
    Row(u32),
    Roll(u32, usize),
    Owner(u32),
    Waiting,
    Counts,
    Lend(usize),
    Word(usize, u32),
    Count(u32, u64),
}

// The next of a line's words is a number of the type asked for. It has digits alone: `parse` would take a plus before them.
fn number<T: FromStr>(words: &mut Split<'_, char>) -> Option<T>
where
    T::Err: Drop,
{
    let word = words.next()?;
    if !word.bytes().all(|b| b.is_ascii_digit()) {
        return None;
    }
    word.parse().ok()
}

fn number_up_to(words: &mut Split<'_, char>, most: usize) -> Option<usize> {
    number(words).filter(|n| *n <= most)
}

fn read_words(words: &mut Split<'_, char>) -> Option<Inquiry> {
    match words.next()? {
        "row" => Some(Inquiry::Row(number(words)?)),
        "roll" => Some(Inquiry::Roll(number(words)?, number_up_to(words, MOST_PLACES)?)),
        "owner" => Some(Inquiry::Owner(number(words)?)),
        "waiting" => Some(Inquiry::Waiting),
        "counts" => Some(Inquiry::Counts),
        "lend" => Some(Inquiry::Lend(number_up_to(words, KEPT_WORDS)?)),
        "word" => Some(Inquiry::Word(number_up_to(words, KEPT_WORDS - 1)?, number(words)?)),
        "count" => Some(Inquiry::Count(
            number(words).filter(|place| *place <= REFUSAL)?,
            number(words)?,
        )),
        _ => None,
    }
}

// One blank stands between two words, and nothing behind the last. A line that is longer than a frame can be was not held whole, so it is
// not looked into.
pub fn read_inquiry(line: &[u8]) -> Option<Inquiry> {
    if line.len() > FRAME_BYTES {
        return None;
    }
    let mut words = str::from_utf8(line).ok()?.split(' ');
    let inquiry = read_words(&mut words)?;
    match words.next() {
        Some(_) => None,
        None => Some(inquiry),
    }
}
