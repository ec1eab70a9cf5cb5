// Bytes from standard input.
ghost use Rattle.console.specs.Arrivals.{Arrived};

use crate::Console;
use std::io::Read;

// What a read brought: so many bytes, at least one; the end of the input; or nothing more, since it failed. (Three ways, so neither an Option nor
// a Result would say it; and a count, since a slice of the block would keep it lent while the arrival is handed on.)
#[derive(Clone, Copy)]
pub enum Arrival {
    Bytes(usize),
    End,
    Failed,
}

impl Console<'_> {
    // Reads once into `input`, which has room for at least a byte, and waits until something is there. A failure is told on standard error.
    // A proved loop has to end, and nothing says that the waiting does: no run uses up its turns.
    pub fn receive(&self, input: &mut [u8]) -> Arrival
        ensures { Arrived result input.new }
    {
        for _ in 0..u64::MAX {
            match self.rt.stdin().read(input) {
                Ok(0) => return Arrival::End,
                Ok(got) => return Arrival::Bytes(got),
                Err(error) => {
                    if !self.may_retry(b"standard input", error) {
                        return Arrival::Failed;
                    }
                }
            }
        }
        Arrival::Failed
    }
}
