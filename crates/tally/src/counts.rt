// The nine counts.
ghost use Rattle.std.specs.Prelude.{◌≡◌, ℕ};
ghost use Rattle.protocol.specs.Answers.{kind_of, raised, count_of, raised_at, counted as counted_spec};
ghost use Rattle.tally.specs.Changed.{changed_at};

use protocol::form::ANSWER_WORDS;
use protocol::{Answer, Refusal, Tally, answer_kinds};

// 'adds 1 to one of them; a count at 18446744073709551615 stays.'
fn raise(n: u64) -> u64
    ensures { result ≡ raised n }
{
    n.saturating_add(1)
}

// An answer's kind, the first of its words, is its place among the nine counts.
fn kind_of(a: Answer) -> u32
    ensures { result ≡ kind_of a }
{
    let [kind, ..] = <[u32; ANSWER_WORDS]>::from(a);
    kind
}

// A refusal is counted too, in the last place, whatever its number.
fn count_of(o: Result<Answer, Refusal>) -> u32
    ensures { result ≡ count_of o }
{
    match o {
        Err(_) => answer_kinds::REFUSAL,
        Ok(a) => kind_of(a),
    }
}

// The tally with the count in place k changed. A number that no kind has changes none. (Nine fields and no array: each count is read by its name.)
pub fn changed_at<F: Fn(u64) -> u64>(k: u32, t: Tally, change: F) -> Tally
    requires { F.IsAlwaysCallable change }
    ensures { (h : ℕ → ℕ) → ((n r : ℕ) → F.post change n r → r ≡ h n) → result ≡ changed_at k h t }
{
    let mut changed = t;
    match k {
        answer_kinds::QUIET => changed.quiet = change(t.quiet),
        answer_kinds::FOUND => changed.found = change(t.found),
        answer_kinds::ENTERED => changed.entered = change(t.entered),
        answer_kinds::GONE => changed.gone = change(t.gone),
        answer_kinds::JOIN_TURNED_AWAY => changed.join_turned_away = change(t.join_turned_away),
        answer_kinds::LEAVE_TURNED_AWAY => changed.leave_turned_away = change(t.leave_turned_away),
        answer_kinds::JOINED => changed.joined = change(t.joined),
        answer_kinds::LEFT => changed.left = change(t.left),
        answer_kinds::REFUSAL => changed.refused = change(t.refused),
        _ => {}
    }
    changed
}

// The tally with the count in place k raised.
pub fn raised_at(k: u32, t: Tally) -> Tally
    ensures { result ≡ raised_at k t }
{
    changed_at(k, t, |n| raise(n))
}

// The tally after a step with this outcome.
pub fn counted(t: Tally, o: Result<Answer, Refusal>) -> Tally
    ensures { result ≡ counted_spec t o }
{
    raised_at(count_of(o), t)
}
