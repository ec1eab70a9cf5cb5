// Reads frames from standard input, one a line, and prints one line each (document 01, '`ringrun`'). What is done with the bytes of a read is
// proved in `stream`; here they are only carried in and out.
#![tactic(auto)]

ghost use Rattle.std.specs.Prelude.{◌≡◌, ◌≤◌, [], length, take, replicate};
ghost use Rattle.protocol.specs.Record.{record_size};
ghost use Rattle.ringrun.specs.Turns.{turned};

use console::{Arrival, Console, until};
use protocol::form::RECORD_WORDS;
use stream::{KEPT, finish, take_bytes};
use texts::Text;

// A larger block makes no fewer calls that matter, and a smaller one does cost time.
const INPUT_BYTES: usize = 8192;

// Room for the answers to a read: each of its bytes may end a line, and an answer has at most 25.
const OUTPUT_BYTES: usize = 204800;

// What a run keeps: the record, the line that has begun, what the last read brought, and the answers, of which the first `waiting` bytes wait to be
// written.
#[derive(Drop)]
struct Run {
    record: [u32; RECORD_WORDS],
    line: Text<KEPT>,
    input: [u8; INPUT_BYTES],
    out: [u8; OUTPUT_BYTES],
    waiting: usize,
}

impl Run {
    // One read, and the answers to every line that it ends.
    fn take_some(&mut self, console: Console) -> Arrival
        ensures turned { turned self.old.record self.old.line self.new.input result ≡ record { slice = self.new.record; begun = self.new.line; printed = take self.new.waiting self.new.out } }
        ensures few { self.new.waiting ≤ length self.new.out }
    {
        let arrival = console.receive(&mut self.input);
        match arrival {
            Arrival::Bytes(n) => {
                self.waiting = take_bytes(
                    &mut self.record,
                    &mut self.line,
                    &mut self.out,
                    &self.input[..n],
                );
            }
            Arrival::End => {
                self.waiting = finish(&mut self.record, self.line.as_slice(), &mut self.out);
                self.line.clear();
            }
            Arrival::Failed => self.waiting = 0,
        }
        arrival
    }

    // Whether the run goes on. The answers are written before the next read: whoever waits at the other end of a modem gets them now. Where they
    // cannot be written it ends, since nobody would see the later ones. (Not one match with `take_some`, whose contract says what the read did to the
    // record, the line and the answers, by what it brought.)
    fn goes_on(&self, console: Console, arrival: Arrival) -> bool
        requires { self.now.waiting ≤ length self.now.out }
    {
        let is_written = console.send(&self.out[..self.waiting]);
        match arrival {
            Arrival::Bytes(_) => is_written,
            Arrival::End => false,
            Arrival::Failed => {
                console.drop_line(self.line.as_slice().len());
                false
            }
        }
    }

    fn run(&mut self, console: Console)
        requires { (self.old.record ≡ replicate record_size 0) × (self.old.line ≡ []) }
    {
        until(|| {
            let arrival = self.take_some(console);
            self.goes_on(console, arrival)
        });
    }
}

// It begins with no line, and all words are 0 until a ring is founded.
fn begun() -> Run
    ensures { (result.record ≡ replicate record_size 0) × (result.line ≡ []) }
{
    Run {
        record: [0; RECORD_WORDS],
        line: Text::new(),
        input: [0; INPUT_BYTES],
        out: [0; OUTPUT_BYTES],
        waiting: 0,
    }
}

fn main(rt: HostRuntime) {
    let console = Console {
        rt: &rt,
        name: b"ringrun",
    };
    begun().run(console);
}
