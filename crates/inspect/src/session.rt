// One line: the call that it makes, what it changes, and its answer.
use crate::bounds::{AnswerText, KEPT_WORDS, MOST_PLACES};
use crate::inquiries::{Inquiry, read_inquiry};
use crate::waiting::waiting;
use frames::{decode, fresh_ring};
use protocol::form::RECORD_WORDS;
use protocol::{Answer, Frame, Refusal, Tally};
use std::fmt;
use std::fmt::Write;
use wording::{Answered, Counted, Given, HubRow, Numbered, Places, UNWRITTEN};

// What is kept from line to line: a record, the tally of its steps, and how many of its words are lent to a call.
#[derive(Drop)]
pub struct Session {
    record: [u32; KEPT_WORDS],
    tally: Tally,
    lent: usize,
}

impl Session {
    pub fn new() -> Self {
        Session {
            record: [0; KEPT_WORDS],
            tally: Tally::default(),
            lent: RECORD_WORDS,
        }
    }

    // (`min`, since nothing is proved of what a line asks for, so nor of how many words are lent.)
    fn words(&self) -> &[u32] {
        &self.record[..self.lent.min(KEPT_WORDS)]
    }

    fn words_mut(&mut self) -> &mut [u32] {
        &mut self.record[..self.lent.min(KEPT_WORDS)]
    }

    fn step(&mut self, operation: u32, x: u32, y: u32) -> Result<Answer, Refusal> {
        let tally = self.tally;
        let stepped = tally::lend(self.words_mut(), operation, x, y, tally);
        self.tally = stepped.tally;
        stepped.outcome
    }

    // The places of the output that are not asked for are not lent.
    fn tell_roll(&self, hub: u32, places: usize, out: &mut AnswerText) -> fmt::Result {
        let mut output = [UNWRITTEN; MOST_PLACES];
        let lent = &mut output[..places.min(MOST_PLACES)];
        let length = ring::roll_call(self.words(), hub, lent);
        write!(
            out,
            "roll from {hub}, {}:{}",
            Given(length.map(|n| Numbered("length", n))),
            Places(lent)
        )
    }

    fn inquire(&mut self, inquiry: Inquiry, out: &mut AnswerText) -> fmt::Result {
        match inquiry {
            Inquiry::Row(hub) => {
                let row = ring::hub_row(self.words(), hub);
                write!(out, "row {hub}: {}", HubRow(row))
            }
            Inquiry::Roll(hub, places) => self.tell_roll(hub, places, out),
            Inquiry::Owner(number) => {
                let owner = ring::owner(self.words(), number).map(|hub| Numbered("hub", hub));
                write!(out, "owner of {number}: {}", Given(owner))
            }
            Inquiry::Waiting => write!(out, "waiting: {}", Given(waiting(self.words()))),
            Inquiry::Counts => write!(out, "{}", Counted(self.tally)),
            Inquiry::Lend(words) => {
                self.lent = words;
                write!(out, "words lent: {words}")
            }
            Inquiry::Word(place, value) => {
                if let Some(word) = self.record.get_mut(place) {
                    *word = value;
                }
                write!(out, "word {place}: {value}")
            }
            Inquiry::Count(place, value) => {
                self.tally = tally::changed_at(place, self.tally, |_| value);
                write!(out, "count {place}: {value}")
            }
        }
    }

    // Every line is taken, and so is every record. A frame means what it means to `ringrun`: one that founds names node 0.
    pub fn answer(&mut self, line: &[u8], out: &mut AnswerText) -> fmt::Result {
        match decode(line) {
            Some(Frame::Founding(count)) => {
                let founded = fresh_ring(self.words_mut(), line, count);
                write!(out, "{}", Given(founded.map(Answered)))
            }
            Some(Frame::Command { operation, x, y }) => {
                let stepped = self.step(operation, x, y);
                write!(out, "{}", Given(stepped.map(Answered)))
            }
            None => match read_inquiry(line) {
                Some(inquiry) => self.inquire(inquiry, out),
                None => write!(out, "does not read"),
            },
        }
    }
}
