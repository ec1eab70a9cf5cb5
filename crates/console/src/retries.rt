// Calls that failed and may be made again.
use crate::Console;
use std::io::{Error, ErrorKind};
use std::thread::yield_now;

impl Console<'_> {
    // A signal ended the call before it did anything: it is made again at once. Or it would have had to wait, on a descriptor that does not wait:
    // it is made again after a pause, which lets others run, since only another process can bring what the call waits for. Any other failure is told.
    pub(crate) fn may_retry(&self, what: &[u8], error: Error) -> bool {
        match error.kind() {
            ErrorKind::Interrupted => true,
            ErrorKind::WouldBlock => {
                yield_now();
                true
            }
            _ => {
                self.tell_failure(what, error);
                false
            }
        }
    }
}
