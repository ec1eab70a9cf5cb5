// What failed, and what was lost by it, on standard error. Where standard error fails too, nobody can be told.
// (In pieces, since the name and the word are bytes, which have no Display. The name is a public field, and `&str` would ask more of who sets it.)
use crate::Console;
use crate::reasons::{text_of, word};
use std::io::{Error, Print};

impl Console<'_> {
    fn put(&self, bytes: &[u8]) {
        let _ = self.rt.stderr().write_all(bytes);
    }

    // The call that failed, and the system's word for why.
    pub(crate) fn tell_failure(&self, what: &[u8], error: Error) {
        let reason = text_of(error);
        self.put(self.name);
        self.put(b": ");
        self.put(what);
        self.put(b": ");
        self.put(word(reason.as_slice()));
        self.put(b"\n");
    }

    // So many bytes were lost, and of what.
    pub(crate) fn tell_dropped(&self, count: usize, what: &[u8]) {
        self.put(self.name);
        self.put(b": ");
        let _ = self.rt.stderr().print(count);
        self.put(what);
        self.put(b"\n");
    }

    // What was begun of a line when a read failed is not answered: it is no line yet, and what follows is not known.
    pub fn drop_line(&self, held: usize) {
        if held > 0 {
            self.tell_dropped(
                held,
                b" bytes held of a line that had not ended were dropped",
            );
        }
    }
}
