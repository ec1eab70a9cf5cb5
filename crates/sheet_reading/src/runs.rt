// Runs: the bytes of a name, or digits, one after the other. They are most of a sheet.
// Here, and in names.rt, numbers.rt and judging.rt, a text and a place in it are passed as two. A struct of both would be made at each call, its
// bound proved there as that clause is now, since each function goes on from a place that another found.
ghost use Rattle.std.specs.Prelude.{◌≡◌, ℕ, Bool, ◌≤◌, ◌<◌, length};
ghost use Rattle.sheet_reading.specs.Runs.{RunTo};

// The end of the bytes from a place on that pass the test.
pub(crate) fn run_end<F: Fn(u8) -> bool>(text: &[u8], from: usize, passes: F) -> usize
    requires within { from ≤ length text.now }
    requires callable { F.IsAlwaysCallable passes }
    ensures ahead { from ≤ result }
    ensures inside { result ≤ length text.now }
    ensures runs { (test : ℕ → Bool) → ((b : ℕ) (r : Bool) → b < 256 → F.post passes b r → r ≡ test b) → RunTo test text.now from result }
{
    match text[from..].iter().position(|b| !passes(*b)) {
        Some(n) => from + n,
        None => text.len(),
    }
}
