// The answer to a line, put behind those that wait to be written.
ghost use Rattle.std.specs.Prelude.{◌≡◌, [], ◌+◌, ◌≤◌, length, take, drop};
ghost use Rattle.protocol.specs.Ringrun.{line_ended};

use frames::answer_line;

// Answers a line. The first `waiting` bytes of the block wait to be written; how many do now is returned. An answer has at most 25 bytes. (The words,
// the line and the answers come as three: the line is bytes here and in `finish`, which any slice is, and a text that goes on in `take_bytes`, so a
// struct of the three would be two.)
pub fn answer(w: &mut [u32], line: &[u8], out: &mut [u8], waiting: usize) -> usize
    requires { waiting + 25 ≤ length out.old }
    ensures ended { line_ended (record { slice = w.old; begun = line.now; printed = take waiting out.old }) ≡ record { slice = w.new; begun = []; printed = take result out.new } }
    ensures few { (waiting ≤ result) × (result ≤ waiting + 25) }
    ensures behind { drop result out.new ≡ drop result out.old }
{
    let printed = answer_line(w, line);
    let text = printed.as_slice();
    let end = waiting + text.len();
    out[waiting..end].copy_from_slice(text);
    end
}
