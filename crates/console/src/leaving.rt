// Bytes to standard output.
ghost use Rattle.std.specs.Prelude.{◌≤◌, length};

use crate::Console;
use std::io::Print;

impl Console<'_> {
    // Writes what it can, and answers what is left: something where a write fails, which is told, or takes nothing. Its turns are as those of
    // `receive`. (One loop for both was tried, over a closure that makes the call. The loop was proved; but a read changes the block that its
    // closure holds, and the proof of what the last call brought into `input` did not close.)
    fn write_on<'a>(&self, text: &'a [u8]) -> &'a [u8]
        ensures { length result.now ≤ length text.now }
    {
        let mut left = text;
        for _ in 0..u64::MAX {
            if left.is_empty() {
                return left;
            }
            match self.rt.stdout().write_some(left) {
                Ok(0) => return left,
                Ok(took) => left = &left[took..],
                Err(error) => {
                    if !self.may_retry(b"standard output", error) {
                        return left;
                    }
                }
            }
        }
        left
    }

    // Writes all of `text`. Where that fails it says on standard error how many bytes were not written, and answers false.
    pub fn send(&self, text: &[u8]) -> bool {
        let left = self.write_on(text);
        if left.is_empty() {
            return true;
        }
        self.tell_dropped(left.len(), b" bytes of output were not written");
        false
    }
}
