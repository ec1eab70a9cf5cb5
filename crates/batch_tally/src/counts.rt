// The questions counted by what stands in their places.
ghost use Rattle.std.specs.Prelude.{◌≡◌, ◌+◌, ◌*◌, ◌≤◌, ◌<◌, length};
ghost use Rattle.protocol.specs.Batch.{place_size};
ghost use Rattle.batch_tally.specs.Places.{count_at, counted_places};

use protocol::form::PLACE_WORDS;
use protocol::{Tally, answer_kinds};

// The count that the place from word `at` on raises: that of refusals, or that of its answer's kind.
fn count_at(outcomes: &[u32], at: usize) -> u32
    requires { at + 1 < length outcomes.now }
    ensures { result ≡ count_at outcomes.now at }
{
    if outcomes[at] == 0 {
        return outcomes[at + 1];
    }
    answer_kinds::REFUSAL
}

// The tally after the questions of the first n places.
pub(crate) fn count_each(t: Tally, outcomes: &[u32], n: usize) -> Tally
    requires { place_size * n ≤ length outcomes.now }
    ensures { result ≡ counted_places t outcomes.now n }
{
    let mut kept = t;
    for i in 0..n {
        let k = count_at(outcomes, PLACE_WORDS * i);
        kept = tally::raised_at(k, kept);
    }
    kept
}
