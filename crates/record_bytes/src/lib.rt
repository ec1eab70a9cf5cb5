// The calls of the ring on lent bytes (document 01, 'Reading the ring'), for `ring_c`: the record's words are loaded, and what the call left is
// written back.
#![tactic(auto)]

mod foundings;

ghost use Rattle.std.specs.Prelude.{◌≡◌};
ghost use Rattle.protocol.specs.Answers.{refusal};
ghost use Rattle.protocol.specs.Bytes.{step_bytes, owner_bytes, roll_bytes};

pub use crate::foundings::fresh;
use protocol::Refusal;
use protocol::form::{ANSWER_BYTES, ANSWER_WORDS, RECORD_WORDS};
use word_bytes::{checked, save};

// One command on the record in the lent bytes. Only the record is loaded, since a step looks at nothing behind it.
pub fn step(words: &mut [u8], operation: u32, x: u32, y: u32, out: &mut [u8]) -> Result<(), Refusal>
    ensures { step_bytes words.old operation x y out.old ≡ record { code = refusal result; bytes = words.new; output = out.new } }
{
    if out.len() < ANSWER_BYTES {
        return Err(Refusal::OutputShort);
    }
    let mut w = checked::<RECORD_WORDS>(words)?;
    let a = steps::step(&mut w, operation, x, y)?;
    save(words, &w);
    save(out, &<[u32; ANSWER_WORDS]>::from(a));
    Ok(())
}

// The node that holds a number, by the record in the lent bytes, which are only read.
pub fn owner(words: &[u8], number: u32, out: &mut [u8]) -> Result<(), Refusal>
    ensures { owner_bytes words.now number out.old ≡ record { code = refusal result; output = out.new } }
{
    if out.len() < 4 {
        return Err(Refusal::OutputShort);
    }
    let w = checked::<RECORD_WORDS>(words)?;
    let hub = queries::owner(&w, number)?;
    save(out, &[hub]);
    Ok(())
}

// The nodes around the ring from a node on, by the record in the lent bytes, which are only read, and how many they are. (Their bytes go over those
// that are lent, which are not loaded.)
pub fn roll(words: &[u8], node: u32, roll: &mut [u8], length: &mut [u8]) -> Result<(), Refusal>
    ensures { roll_bytes words.now node roll.old length.old ≡ record { code = refusal result; roll = roll.new; length = length.new } }
{
    if length.len() < 4 {
        return Err(Refusal::OutputShort);
    }
    let w = checked::<RECORD_WORDS>(words)?;
    let around = queries::around(&w, node)?;
    let nodes = around.as_slice();
    if roll.len() / 4 < nodes.len() {
        return Err(Refusal::OutputShort);
    }
    save(roll, nodes);
    save(length, &[nodes.len() as u32]);
    Ok(())
}
