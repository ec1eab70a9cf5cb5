// Who owns a machine among the members, by how far each node's numbers reach back.
ghost use Rattle.std.specs.Prelude.{◌≡◌, ℕ, ◌≤◌, ◌<◌, nat_eq, length, get_or, MatchOption};
ghost use Rattle.lists.specs.Basics.{when◌then◌else◌};
ghost use Rattle.protocol.specs.Record.{most_nodes, read};
ghost use Rattle.protocol.specs.WellFormed.{identifiers};
ghost use Rattle.layout.specs.Form.{Valid};
ghost use Rattle.cardlayout.specs.Reach.{top, least, gap as gap_spec, reach as reach_spec};
ghost use Rattle.card_checks.specs.Homes.{Copied, nearest as nearest_spec};

use clockwise::distance;
use lists::pick;
use protocol::form::{ROW_WORDS, ROWS_AT};

const TOP: u32 = u32::MAX;

// How far b's numbers reach back if a comes before it: all the way round where a is b.
pub(crate) fn gap(a: u32, b: u32) -> u32
    ensures { result ≡ gap_spec a b }
{
    if a == b {
        return TOP;
    }
    distance(a, b) - 1
}

// The least of what `far` says of the marked nodes' identifiers, and of 2^32 - 1. (Nodes without a mark have 2^32 - 1, so that the loop has no
// branch, and is vectorised, which a fold over marks and names side by side is not. Two slices: a struct of both as the parameter of `reach` and
// `nearest` is a narrower type, which asks more of callers.)
fn least<F: Fn(u32) -> u32>(names: &[u32], marks: &[u32], far: F) -> u32
    requires callable { F.IsAlwaysCallable far }
    requires long { length marks.now ≤ length names.now }
    ensures { (h : ℕ → ℕ) → ((x y : ℕ) → F.post far x y → y ≡ h x) → result ≡ least (λ m. when nat_eq (get_or marks.now m 0) 1 then h (get_or names.now m 0) else top) (length marks.now) }
{
    let mut best = TOP;
    for m in 0..marks.len() {
        best = best.min(pick(marks[m] == 1, far(names[m]), TOP));
    }
    best
}

// How far node h's numbers reach back among the marked nodes.
pub fn reach(names: &[u32], marks: &[u32], h: usize) -> u32
    requires { (h < length names.now) × (length marks.now ≤ length names.now) }
    ensures { result ≡ reach_spec names.now marks.now h }
{
    let id = names[h];
    least(names, marks, |name| gap(name, id))
}

// The nearest marked node; `None` where no node is marked.
pub fn nearest(names: &[u32], marks: &[u32], v: u32) -> Option<u32>
    requires { (length marks.now ≤ length names.now) × (length marks.now ≤ most_nodes) }
    ensures { MatchOption result (nearest_spec names.now marks.now v ≡ length marks.now) (λ m. (m ≡ nearest_spec names.now marks.now v) × (m < length marks.now)) }
{
    let d = least(names, marks, |name| distance(v, name));
    let near = marks
        .iter()
        .zip(names)
        .position(|(mark, name)| (*mark == 1) & (distance(v, *name) <= d))?;
    Some(near as u32)
}

// The identifiers of the record's nodes, side by side; 0 behind them.
pub fn names_of(w: &[u32]) -> [u32; 64]
    requires { Valid w.now }
    ensures { (length result ≡ most_nodes) × Copied result (identifiers (read w.now)) }
{
    let mut names = [0u32; 64];
    for i in 0..w[1] as usize {
        names[i] = w[ROWS_AT + ROW_WORDS * i];
    }
    names
}
