// The line that is printed for an outcome.
ghost use Rattle.std.specs.Prelude.{◌≡◌, length, take};
ghost use Rattle.protocol.specs.Frames.{digit_of, print, refusal_text, fields_text, outcome_text, line};

use protocol::form::ANSWER_WORDS;
use protocol::{Answer, Refusal};
use texts::Text;

// The longest line: the digits of an answer, and LF.
pub const LINE: usize = 25;

// The last digit of a number, upper case. (The documents' rule, as it stands in its contract: the library's `from_digit` gives lower case.)
fn digit_of(v: u32) -> u8
    ensures { result ≡ digit_of v }
{
    let d = v % 16;
    if d < 10 {
        return (48 + d) as u8;
    }
    (55 + d) as u8
}

// The last digits of a number, as many as there is room for. (By index: tried with `iter_mut().rev()`, behind which nothing is known of the slice, so
// that the proof of the return did not close.)
pub fn put(out: &mut [u8], v: u32)
    ensures { out.new ≡ print (length out.old) v }
{
    let mut rest = v;
    for i in (0..out.len()).rev() {
        out[i] = digit_of(rest);
        rest /= 16;
    }
}

// `hubsheet` prints such a line too, and has more room for one; where there is less than a line's, its first bytes. (The bytes begin as LF, so that
// what is put in front of the last of them ends with one: a line that is copied whole takes less time than its text and then LF.)
pub fn refusal_line<const N: usize>(number: u32) -> Text<N>
    ensures { result ≡ take N (line (refusal_text number)) }
{
    let mut bytes = [b'\n'; 5];
    put(&mut bytes[0..2], 238);
    put(&mut bytes[2..4], number);
    let mut printed = Text::new();
    printed.push(&bytes);
    printed
}

fn fields_line(fields: [u32; ANSWER_WORDS]) -> Text<LINE>
    ensures { result ≡ line (fields_text fields) }
{
    let mut bytes = [b'\n'; LINE];
    put(&mut bytes[0..2], fields[0]);
    put(&mut bytes[2..4], fields[1]);
    put(&mut bytes[4..12], fields[2]);
    put(&mut bytes[12..20], fields[3]);
    put(&mut bytes[20..24], fields[4]);
    let mut printed = Text::new();
    printed.push(&bytes);
    printed
}

pub fn outcome_line(o: Result<Answer, Refusal>) -> Text<LINE>
    ensures { result ≡ line (outcome_text o) }
{
    match o {
        Err(k) => refusal_line(u32::from(k)),
        Ok(a) => fields_line(<[u32; ANSWER_WORDS]>::from(a)),
    }
}
