// The ring for programs in C (document 01, 'Reading the ring'): the words travel as bytes, four a word, lowest first. Every length of
// every lent slice is taken, and whatever is wrong is refused by its number. include/ring.h says the same to a C compiler.
#![tactic(auto)]

ghost use Rattle.std.specs.Prelude.{◌≡◌};
ghost use Rattle.protocol.specs.Answers.{refusal};
ghost use Rattle.protocol.specs.Bytes.{step_bytes, owner_bytes, roll_bytes, fresh_bytes, fresh_by_bytes};
ghost use Rattle.protocol.specs.CardBytes.{step_cards_bytes, offer_bytes, fresh_cards_bytes, fresh_by_cards_bytes};
ghost use Rattle.protocol.specs.Batch.{batch_bytes};
ghost use Rattle.sheet_bytes.specs.Told.{sheet_read, sheet_write};

use protocol::Refusal;

// A refusal's number, 0 for none.
fn code(r: Result<(), Refusal>) -> u32
    ensures { result ≡ refusal r }
{
    match r {
        Ok(()) => 0,
        Err(k) => u32::from(k),
    }
}

// One command on the record in the lent bytes.
#[unsafe(no_mangle)]
pub extern "C" fn ring_step(words: &mut [u8], operation: u32, x: u32, y: u32, out: &mut [u8]) -> u32
    ensures { step_bytes words.old operation x y out.old ≡ record { code = result; bytes = words.new; output = out.new } }
{
    code(record_bytes::step(words, operation, x, y, out))
}

// The node that holds a number, by the record in the lent bytes, which are only read.
#[unsafe(no_mangle)]
pub extern "C" fn ring_owner(words: &[u8], number: u32, out: &mut [u8]) -> u32
    ensures { owner_bytes words.now number out.old ≡ record { code = result; output = out.new } }
{
    code(record_bytes::owner(words, number, out))
}

// The nodes around the ring from a node on, by the record in the lent bytes, which are only read, and how many they are.
#[unsafe(no_mangle)]
pub extern "C" fn ring_roll(words: &[u8], node: u32, roll: &mut [u8], length: &mut [u8]) -> u32
    ensures { roll_bytes words.now node roll.old length.old ≡ record { code = result; roll = roll.new; length = length.new } }
{
    code(record_bytes::roll(words, node, roll, length))
}

// A ring founded in the lent bytes by the node with the smallest identifier.
#[unsafe(no_mangle)]
pub extern "C" fn ring_fresh(words: &mut [u8], identifiers: &[u8]) -> u32
    ensures { fresh_bytes words.old identifiers.now ≡ record { code = result; bytes = words.new } }
{
    code(record_bytes::fresh(words, identifiers, None))
}

// A ring founded there by the node that the caller names.
#[unsafe(no_mangle)]
pub extern "C" fn ring_fresh_by(words: &mut [u8], identifiers: &[u8], founder: u32) -> u32
    ensures { fresh_by_bytes words.old identifiers.now founder ≡ record { code = result; bytes = words.new } }
{
    code(record_bytes::fresh(words, identifiers, Some(founder)))
}

// One command on the record in the lent bytes, with its cards in others.
#[unsafe(no_mangle)]
pub extern "C" fn ring_step_cards(
    words: &mut [u8],
    book: &mut [u8],
    operation: u32,
    x: u32,
    y: u32,
    out: &mut [u8],
) -> u32
    ensures { step_cards_bytes words.old book.old operation x y out.old ≡ record { code = result; bytes = words.new; book = book.new; output = out.new } }
{
    code(card_bytes::step(words, book, operation, x, y, out))
}

// A card offered to the ring in the lent bytes, which are only read.
#[unsafe(no_mangle)]
pub extern "C" fn ring_offer(
    words: &[u8],
    book: &mut [u8],
    machine: u32,
    revision: u32,
    price: u32,
) -> u32
    ensures { offer_bytes words.now book.old machine revision price ≡ record { code = result; book = book.new } }
{
    code(card_bytes::offer(words, book, machine, revision, price))
}

// A ring founded in the lent bytes with its card slice, by the node with the smallest identifier.
#[unsafe(no_mangle)]
pub extern "C" fn ring_fresh_cards(words: &mut [u8], book: &mut [u8], identifiers: &[u8]) -> u32
    ensures { fresh_cards_bytes words.old book.old identifiers.now ≡ record { code = result; bytes = words.new; book = book.new } }
{
    code(card_bytes::fresh(words, book, identifiers, None))
}

// The same, by the node that the caller names.
#[unsafe(no_mangle)]
pub extern "C" fn ring_fresh_by_cards(
    words: &mut [u8],
    book: &mut [u8],
    identifiers: &[u8],
    founder: u32,
) -> u32
    ensures { fresh_by_cards_bytes words.old book.old identifiers.now founder ≡ record { code = result; bytes = words.new; book = book.new } }
{
    code(card_bytes::fresh(words, book, identifiers, Some(founder)))
}

// The questions of a route asked at one node, on the record in the lent bytes; an outcome of six words for each.
#[unsafe(no_mangle)]
pub extern "C" fn ring_route(
    words: &mut [u8],
    node: u32,
    numbers: &[u8],
    outcomes: &mut [u8],
) -> u32
    ensures { batch_bytes words.old node numbers.now outcomes.old ≡ record { code = result; bytes = words.new; output = outcomes.new } }
{
    code(batch_bytes::ask(words, node, numbers, outcomes))
}

// The hubs of an office sheet, into the lent identifiers and names.
#[unsafe(no_mangle)]
pub extern "C" fn ring_sheet_read(
    text: &[u8],
    identifiers: &mut [u8],
    names: &mut [u8],
    counts: &mut [u8],
) -> u32
    ensures { sheet_read text.now identifiers.old names.old counts.old ≡ record { code = result; identifiers = identifiers.new; names = names.new; counts = counts.new } }
{
    code(sheet_bytes::read(text, identifiers, names, counts))
}

// The office sheet of names and identifiers, into the lent text.
#[unsafe(no_mangle)]
pub extern "C" fn ring_sheet_write(
    names: &[u8],
    identifiers: &[u8],
    text: &mut [u8],
    counts: &mut [u8],
) -> u32
    ensures { sheet_write names.now identifiers.now text.old counts.old ≡ record { code = result; text = text.new; counts = counts.new } }
{
    code(sheet_bytes::write(names, identifiers, text, counts))
}
