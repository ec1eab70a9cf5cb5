// The bytes of a read, line by line. An answer is written before the next line is looked at.
use crate::bounds::{AnswerText, KEPT_BYTES};
use crate::session::Session;
use console::{Arrival, Console};
use std::fmt::Write;
use texts::Text;

// The session, the line that has begun, and room for an answer.
#[derive(Drop)]
pub struct Desk {
    session: Session,
    line: Text<KEPT_BYTES>,
    text: AnswerText,
}

impl Desk {
    pub fn new() -> Self {
        Desk {
            session: Session::new(),
            line: Text::new(),
            text: AnswerText::new(),
        }
    }

    // Whether the answer could be written.
    fn answer_line(&mut self, console: Console) -> bool {
        let Desk {
            session,
            line,
            text,
        } = self;
        text.clear();
        let _ = session.answer(line.as_slice(), text);
        let _ = writeln!(text);
        line.clear();
        console.send(text.as_slice())
    }

    // Once an answer could not be written no further line is answered. (The loop of `stream::take_bytes`, which does not stop before the end. One
    // method for both would take a closure, and a contract that says what it did at each line, and be longer than the two.)
    fn take_bytes(&mut self, console: Console, input: &[u8]) -> bool {
        let mut left = input;
        while let Some(rest) = self.line.gather(left) {
            if !self.answer_line(console) {
                return false;
            }
            left = rest;
        }
        true
    }

    // One read, and the answers to every line that it ends. At the end of the input the last line may lack its LF, and where nothing has begun
    // there is none. False where nothing more comes, or nobody sees the answers.
    pub fn take_some(&mut self, console: Console, input: &mut [u8]) -> bool {
        let arrival = console.receive(input);
        let held = self.line.as_slice().len();
        match arrival {
            Arrival::Bytes(n) => self.take_bytes(console, &input[..n]),
            Arrival::End => {
                if held > 0 {
                    self.answer_line(console);
                }
                false
            }
            Arrival::Failed => {
                console.drop_line(held);
                false
            }
        }
    }
}
