// Do the identifiers differ? Each is held against those before it, four at a time: they are read once for all four.
ghost use Rattle.std.specs.Prelude.{◌≡◌, ◌&&◌, not, ◌+◌, ◌≤◌, true, nat_eq, fold, take, length};
ghost use Rattle.lists.specs.Basics.{distinct};
ghost use Rattle.lists.specs.Merge.{unlike_all, all_unlike};

// Whether y is none of the four. (Four numbers, here and below, and no array, since each is compared by itself.)
fn is_none_of(a: u32, b: u32, c: u32, d: u32, y: u32) -> bool
    ensures { result ≡ unlike_all a b c d y }
{
    (y != a) & (y != b) & (y != c) & (y != d)
}

// Whether no two of the four are equal.
fn four_differ(a: u32, b: u32, c: u32, d: u32) -> bool
    ensures { result ≡ all_unlike a b c d }
{
    (a != b) & (a != c) & (a != d) & (b != c) & (b != d) & (c != d)
}

// Whether an identifier is none of those before it. (`all` would stop at the first that is equal, and so not be vectorised.)
fn is_new(before: &[u32], id: u32) -> bool
    ensures { result ≡ fold (λ ok y. ok && not (nat_eq y id)) true before.now }
{
    before.iter().fold(true, |ok, y| ok & (*y != id))
}

// Whether none of the four is one of those before them.
fn are_new(before: &[u32], a: u32, b: u32, c: u32, d: u32) -> bool
    ensures { result ≡ fold (λ ok y. ok && unlike_all a b c d y) true before.now }
{
    before
        .iter()
        .fold(true, |ok, y| ok & is_none_of(a, b, c, d, *y))
}

// Whether the first i + 4 differ, given that the first i do.
fn four_more(ids: &[u32], i: usize) -> bool
    requires { i + 4 ≤ length ids.now }
    ensures { (distinct (take i ids.now) && result) ≡ distinct (take (i + 4) ids.now) }
{
    let a = ids[i];
    let b = ids[i + 1];
    let c = ids[i + 2];
    let d = ids[i + 3];
    are_new(&ids[..i], a, b, c, d) & four_differ(a, b, c, d)
}

// Whether no identifier is there twice. (Out of line: with this in it, founding a ring would be too long to be put into its callers, and would
// clear the record twice.)
#[inline(never)]
pub fn all_differ(ids: &[u32]) -> bool
    ensures { result ≡ distinct ids.now }
{
    let fours = ids.len() / 4;
    let mut ok = true;
    for k in 0..fours {
        ok &= four_more(ids, 4 * k);
    }
    for i in 4 * fours..ids.len() {
        ok &= is_new(&ids[..i], ids[i]);
    }
    ok
}
