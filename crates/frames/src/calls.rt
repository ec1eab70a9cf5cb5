// The call that a line makes on the record.
ghost use Rattle.std.specs.Prelude.{◌≡◌, ◌+◌, ◌*◌, ◌≤◌, length};
ghost use Rattle.protocol.specs.Calls.{fresh_by_call};
ghost use Rattle.protocol.specs.Frames.{identifiers as identifiers_spec, line_call};

use crate::digits::number;
use crate::printing::{LINE, outcome_line, refusal_line};
use crate::reading::decode;
use founding::fresh;
use protocol::{Answer, Frame, Refusal};
use steps::step;
use texts::Text;

// What is printed as the number of a line that is no frame: EEFF. No call refuses by it.
const UNREADABLE: u32 = 255;

// The identifiers that follow F0, as many as there is room for.
fn read_identifiers(line: &[u8], ids: &mut [u32])
    requires { 2 + 8 * length ids.old ≤ length line.now }
    ensures { ids.new ≡ identifiers_spec line.now (length ids.old) }
{
    for (i, id) in ids.iter_mut().enumerate() {
        let at = 2 + 8 * i;
        *id = number(&line[at..at + 8]);
    }
}

// The fresh call of a line that decodes as a founding with so many identifiers. A line has no place for a founder, and those who write it
// count on the first node: it names node 0.
pub fn fresh_ring(w: &mut [u32], line: &[u8], count: usize) -> Result<Answer, Refusal>
    requires { (count ≤ 64) × (2 + 8 * count ≤ length line.now) }
    ensures { fresh_by_call w.old (identifiers_spec line.now count) 0 ≡ record { outcome = result; slice = w.new } }
{
    let mut room = [0u32; 64];
    let ids = &mut room[..count];
    read_identifiers(line, ids);
    fresh(w, ids, Some(0))
}

// One line, without its LF, on the record's words: what is printed for it, and the words after it. Every line and every slice are taken.
pub fn answer_line(w: &mut [u32], line: &[u8]) -> Text<LINE>
    ensures { line_call w.old line.now ≡ record { printed = result; slice = w.new } }
{
    let Some(frame) = decode(line) else {
        return refusal_line(UNREADABLE);
    };
    match frame {
        Frame::Founding(count) => outcome_line(fresh_ring(w, line, count)),
        Frame::Command { operation, x, y } => outcome_line(step(w, operation, x, y)),
    }
}
