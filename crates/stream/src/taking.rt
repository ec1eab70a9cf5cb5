// The bytes of a read, line by line.
ghost use Rattle.std.specs.Prelude.{◌≡◌, [], ◌*◌, ◌≤◌, length, take, drop};
ghost use Rattle.protocol.specs.Ringrun.{ended};
ghost use Rattle.stream.specs.Pieces.{taken};

use crate::answering::answer;
use texts::Text;

// What is kept of a line: one byte more than a frame can have.
pub const KEPT: usize = 515;

// The bytes of one read: every line that ends in them is answered, and the answers stand at the front of the block; how many bytes they have is
// returned. Each byte can end a line, and an answer has at most 25 bytes. (A slice and that count, and no `Text`: its room would be fixed when the caller
// is compiled, which asks more than a slice that is long enough.)
pub fn take_bytes(w: &mut [u32], line: &mut Text<KEPT>, out: &mut [u8], input: &[u8]) -> usize
    requires { 25 * length input.now ≤ length out.old }
    ensures taken { taken w.old line.old input.now ≡ record { slice = w.new; begun = line.new; printed = take result out.new } }
    ensures few { result ≤ length out.old }
    ensures behind { drop result out.new ≡ drop result out.old }
{
    let mut waiting = 0;
    let mut left = input;
    while let Some(rest) = line.gather(left) {
        waiting = answer(w, line.as_slice(), out, waiting);
        line.clear();
        left = rest;
    }
    waiting
}

// The end of the input. The last line may lack its LF; where the input ends with LF, or is empty, there is none.
pub fn finish(w: &mut [u32], line: &[u8], out: &mut [u8]) -> usize
    requires { 25 ≤ length out.old }
    ensures ended { ended (record { slice = w.old; begun = line.now; printed = [] }) ≡ record { slice = w.new; begun = []; printed = take result out.new } }
    ensures few { result ≤ length out.old }
    ensures behind { drop result out.new ≡ drop result out.old }
{
    if line.len() == 0 {
        return 0;
    }
    answer(w, line, out, 0)
}
