// A record's rows, messages and unused words.
ghost use Rattle.std.specs.Prelude.{◌≡◌, ℕ, ◌≤◌, ◌<◌, length, get_or};
ghost use Rattle.lists.specs.Basics.{every, table};
ghost use Rattle.protocol.specs.Record.{most_nodes, most_messages, row_start, message_start, record_size, count_in, messages_in, asked_in, row_from, message_from, read};
ghost use Rattle.protocol.specs.WellFormed.{row_ok, message_ok, unused_ok};
ghost use Rattle.wellformed.specs.Laws.{nodes_ok};

use crate::differ::all_differ;
use crate::message::bad_message;
use crate::row::row_ok;
use crate::zeros::all_zero;
use protocol::form::{MESSAGE_WORDS, MESSAGES_AT, RECORD_WORDS, ROW_WORDS, ROWS_AT};

// A record whose header is as it must be: its words, and how many nodes and messages it has.
#[derive(Clone, Copy)]
pub(crate) struct Headed<'a> {
    pub(crate) words: &'a [u32],
    pub(crate) nodes: u32,
    pub(crate) messages: u32,
    ghost long: { record_size ≤ length words.now },
    ghost nodes_are: { nodes ≡ count_in words.now },
    ghost nodes_few: { nodes ≤ most_nodes },
    ghost messages_are: { messages ≡ messages_in words.now },
    ghost messages_few: { messages ≤ most_messages },
}

impl Headed<'_> {
    // Whether each row is as it must be. The identifiers are put side by side, so that comparing them is vectorised too: the loop then reads every
    // word of a row, which the compiler does in blocks without a rest.
    fn rows_ok(&self, ids: &mut [u32; 64]) -> bool
        ensures { (result ≡ every (row_ok self.now.nodes) (table self.now.nodes (λ i. row_from self.now.words.now (row_start i)))) × ((i : ℕ) → i < self.now.nodes → get_or ids.new i 0 ≡ get_or self.now.words.now (row_start i) 0) }
    {
        let w = self.words;
        let n = self.nodes;
        let mut ok = true;
        for i in 0..n as usize {
            let h = record::row_at(w, ROWS_AT + ROW_WORDS * i);
            ids[i] = h.identifier;
            ok &= row_ok(n, h);
        }
        ok
    }

    // Whether rows and identifiers are as they must be.
    pub(crate) fn nodes_ok(&self) -> bool
        ensures { result ≡ nodes_ok (read self.now.words.now) }
    {
        let mut ids = [0; 64];
        let rows = self.rows_ok(&mut ids);
        all_differ(&ids[..self.nodes as usize]) & rows
    }

    // Whether each message is as it must be.
    pub(crate) fn messages_ok(&self) -> bool
        ensures { result ≡ every (message_ok self.now.nodes (asked_in self.now.words.now)) (table self.now.messages (λ j. message_from self.now.words.now (message_start j))) }
    {
        let w = self.words;
        let n = self.nodes;
        let asked = w[3];
        let mut bad: u32 = 0;
        for j in 0..self.messages as usize {
            bad |= bad_message(
                n,
                asked,
                record::message_at(w, MESSAGES_AT + MESSAGE_WORDS * j),
            );
        }
        bad == 0
    }

    // Whether the unused words are 0.
    pub(crate) fn unused_ok(&self) -> bool
        ensures { result ≡ unused_ok self.now.words.now }
    {
        let w = self.words;
        let rows = ROWS_AT + ROW_WORDS * (self.nodes as usize);
        let messages = MESSAGES_AT + MESSAGE_WORDS * (self.messages as usize);
        all_zero(&w[rows..MESSAGES_AT]) & all_zero(&w[messages..RECORD_WORDS])
    }
}
