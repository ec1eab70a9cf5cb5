// Words out of bytes, and into bytes, for the calls from C. The loops have no way out but their end, so that the compiler can take many words at a
// time.
#![tactic(auto)]

mod counted;

ghost use Rattle.std.specs.Prelude.{◌≡◌, ◌+◌, ◌*◌, ◌≤◌, ◌<◌, length, MatchResult};
ghost use Rattle.protocol.specs.declared.refusal.Refusal.TheVariants.{RecordShort};
ghost use Rattle.protocol.specs.Bytes.{over};
ghost use Rattle.word_bytes.specs.Carry.{first_words};

pub use counted::Words;
use protocol::Refusal;

// As many words as there is room for, from the first byte on.
pub fn load(b: &[u8], w: &mut [u32])
    requires { 4 * length w.old ≤ length b.now }
    ensures { w.new ≡ first_words b.now (length w.old) }
{
    let (words, _) = b.as_chunks::<4>();
    for (i, x) in w.iter_mut().enumerate() {
        *x = u32::from_le_bytes(words[i]);
    }
}

// The first N words, as a record or its cards are, and nothing that is behind them.
pub fn loaded<const N: usize>(b: &[u8]) -> [u32; N]
    requires { 4 * N ≤ length b.now }
    ensures { result ≡ first_words b.now N }
{
    let mut w = [0u32; N];
    load(b, &mut w);
    w
}

// The same of bytes of any length: are there N words? 1.
pub fn checked<const N: usize>(b: &[u8]) -> Result<[u32; N], Refusal>
    ensures { MatchResult result (λ w. (w ≡ first_words b.now N) × (4 * N ≤ length b.now)) (λ refusal. (refusal ≡ RecordShort) × (length b.now < 4 * N)) }
{
    if b.len() / 4 < N {
        return Err(Refusal::RecordShort);
    }
    Ok(loaded(b))
}

// All words, from the first byte on. The bytes behind them stay. (How long the bytes are is a clause here and at `load`, and no type: C lends them,
// of any length.)
pub fn save(b: &mut [u8], w: &[u32])
    requires { 4 * length w.now ≤ length b.old }
    ensures { b.new ≡ over b.old w.now }
{
    for (i, x) in w.iter().enumerate() {
        let at = 4 * i;
        b[at..at + 4].copy_from_slice(&x.to_le_bytes());
    }
}
