// The frame that a line is.
ghost use Rattle.std.specs.Prelude.{◌≡◌};
ghost use Rattle.protocol.specs.Frames.{founding as founding_spec, frame};

use crate::digits::{all_digits, number};
use protocol::Frame;

// The digits after F0, if they make whole identifiers. None at all do: how many a ring may have is for the fresh call to say.
fn founding(digits: usize) -> Option<Frame>
    ensures { result ≡ founding_spec digits }
{
    if digits % 8 != 0 {
        return None;
    }
    Some(Frame::Founding(digits / 8))
}

// The length is asked first, so that a line of any length costs no more than the longest frame. F0 is asked before the length
// of a command: two identifiers make a frame that is as long as one.
pub fn decode(line: &[u8]) -> Option<Frame>
    ensures { result ≡ frame line.now }
{
    if 514 < line.len() {
        return None;
    }
    if !all_digits(line) {
        return None;
    }
    if line.len() < 2 {
        return None;
    }
    let operation = number(&line[0..2]);
    if operation == 240 {
        return founding(line.len() - 2);
    }
    if line.len() != 18 {
        return None;
    }
    Some(Frame::Command {
        operation,
        x: number(&line[2..10]),
        y: number(&line[10..18]),
    })
}
