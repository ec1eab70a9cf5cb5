// The questions one after the other, and a place of six words for the outcome of each.
ghost use Rattle.std.specs.Prelude.{◌≡◌, ◌*◌, ◌≤◌, ◌<◌, length};
ghost use Rattle.protocol.specs.declared.Answer.TheVariants.{Quiet};
ghost use Rattle.protocol.specs.Batch.{ask_each, place_size, place_words as place_words_spec, batch_written};
ghost use Rattle.layout.specs.Form.{Valid};
ghost use Rattle.batches.specs.Each.{turn};

use protocol::form::{ANSWER_WORDS, PLACE_WORDS};
use protocol::{Answer, Refusal};

// By which number the question was refused, or 0 and its answer. A refusal has no answer: no old word may be taken for one.
fn place_words(o: Result<Answer, Refusal>) -> [u32; PLACE_WORDS]
    ensures { result ≡ place_words_spec o }
{
    match o {
        Err(k) => [u32::from(k), 0, 0, 0, 0, 0],
        Ok(a) => {
            let [kind, hub, number, ticket, hops] = <[u32; ANSWER_WORDS]>::from(a);
            [0, kind, hub, number, ticket, hops]
        }
    }
}

// Number i asked, and its outcome put into its place. A refusal takes its place like an answer, and those behind it are still asked. (Record, node,
// numbers and outcomes are four arguments: so they are lent, by callers in C too.)
fn ask_one(w: &mut [u32], node: u32, numbers: &[u32], outcomes: &mut [u32], i: usize)
    requires { (Valid w.old) × (place_size * length numbers.now ≤ length outcomes.old) × (i < length numbers.now) }
    ensures { turn w.old node numbers.now outcomes.old i ≡ record { slice = w.new; output = outcomes.new } }
{
    let at = PLACE_WORDS * i;
    let place = place_words(steps::ask(w, node, numbers[i]));
    outcomes[at..at + PLACE_WORDS].copy_from_slice(&place);
}

// On a record that has passed questions 1 and 2, with a place for each number.
pub fn ask_each(w: &mut [u32], node: u32, numbers: &[u32], outcomes: &mut [u32])
    requires { (Valid w.old) × (place_size * length numbers.now ≤ length outcomes.old) }
    ensures { batch_written numbers.now outcomes.old (ask_each w.old node numbers.now) ≡ record { outcome = Ok Quiet; slice = w.new; output = outcomes.new } }
{
    for i in 0..numbers.len() {
        ask_one(w, node, numbers, outcomes, i);
    }
}
