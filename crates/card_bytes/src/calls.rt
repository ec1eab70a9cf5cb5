// The calls that lend the cards too, on bytes. Both are long enough before either is loaded: a refusal by 1 carries no word.
ghost use Rattle.std.specs.Prelude.{◌≡◌};
ghost use Rattle.protocol.specs.Fresh.{founder_of};
ghost use Rattle.protocol.specs.Bytes.{words_of};
ghost use Rattle.protocol.specs.Answers.{refusal};
ghost use Rattle.protocol.specs.CardBytes.{step_cards_bytes, offer_bytes, fresh_by_cards_bytes};

use protocol::Refusal;
use protocol::form::{
    ANSWER_BYTES, ANSWER_WORDS, BOOK_BYTES, BOOK_WORDS, RECORD_BYTES, RECORD_WORDS,
};
use word_bytes::{Words, checked, loaded, save};

// One command on the record in the lent bytes, with the cards in others. Only the first words of both are loaded: a step looks at nothing behind them.
pub fn step(
    words: &mut [u8],
    book: &mut [u8],
    operation: u32,
    x: u32,
    y: u32,
    out: &mut [u8],
) -> Result<(), Refusal>
    ensures { step_cards_bytes words.old book.old operation x y out.old ≡ record { code = refusal result; bytes = words.new; book = book.new; output = out.new } }
{
    if out.len() < ANSWER_BYTES {
        return Err(Refusal::OutputShort);
    }
    if words.len() < RECORD_BYTES {
        return Err(Refusal::RecordShort);
    }
    let mut k = checked::<BOOK_WORDS>(book)?;
    let mut w = loaded::<RECORD_WORDS>(words);
    let a = cards::step(&mut w, &mut k, operation, x, y)?;
    save(words, &w);
    save(book, &k);
    save(out, &<[u32; ANSWER_WORDS]>::from(a));
    Ok(())
}

// A card offered to the ring in the lent bytes, which are only read.
pub fn offer(
    words: &[u8],
    book: &mut [u8],
    machine: u32,
    revision: u32,
    price: u32,
) -> Result<(), Refusal>
    ensures { offer_bytes words.now book.old machine revision price ≡ record { code = refusal result; book = book.new } }
{
    if words.len() < RECORD_BYTES {
        return Err(Refusal::RecordShort);
    }
    let mut k = checked::<BOOK_WORDS>(book)?;
    let w = loaded::<RECORD_WORDS>(words);
    card_offers::offer(&w, &mut k, machine, revision, price)?;
    save(book, &k);
    Ok(())
}

// A ring founded in the lent bytes with its card slice, whoever is to found it. Neither is loaded, since an accepted call writes both whole. (`let .. else`
// for the reason that record_bytes' `fresh` has: the record's words are cleared once. The cards' are cleared twice.)
pub fn fresh(
    words: &mut [u8],
    book: &mut [u8],
    identifiers: &[u8],
    founder: Option<u32>,
) -> Result<(), Refusal>
    ensures { fresh_by_cards_bytes words.old book.old identifiers.now (founder_of founder (words_of identifiers.now)) ≡ record { code = refusal result; bytes = words.new; book = book.new } }
{
    if words.len() < RECORD_BYTES {
        return Err(Refusal::RecordShort);
    }
    if book.len() < BOOK_BYTES {
        return Err(Refusal::RecordShort);
    }
    let Some(ids) = Words::<64>::of(identifiers) else {
        return Err(Refusal::IdentifierCount);
    };
    let mut w = [0u32; RECORD_WORDS];
    let mut k = [0u32; BOOK_WORDS];
    cards::fresh(&mut w, &mut k, ids.as_slice(), founder)?;
    save(words, &w);
    save(book, &k);
    Ok(())
}
