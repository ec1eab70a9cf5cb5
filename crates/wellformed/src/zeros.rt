// Whether words are all 0.
ghost use Rattle.std.specs.Prelude.{◌≡◌, nat_eq, fold, zip};
ghost use Rattle.std.specs.Int.Bits.{bit_or};
ghost use Rattle.lists.specs.Basics.{every};

// The words of a part, merged.
fn merged_words(part: &[u32]) -> u32
    ensures { result ≡ fold (λ all x. bit_or all x) 0 part.now }
{
    part.iter().fold(0, |all, x| all | *x)
}

// The words of two parts of one length, merged side by side.
fn merged_halves(first: &[u32], second: &[u32]) -> u32
    ensures { result ≡ fold (λ all p. bit_or (bit_or all p.0) p.1) 0 (zip first.now second.now) }
{
    first
        .iter()
        .zip(second)
        .fold(0, |all, (x, y)| all | *x | *y)
}

// Whether every word of the part is 0. A long part is read faster as two halves; what is left over is one word at most.
pub fn all_zero(part: &[u32]) -> bool
    ensures { result ≡ every (λ x. nat_eq x 0) part.now }
{
    let half = part.len() / 2;
    let even = half + half;
    merged_halves(&part[..half], &part[half..even]) | merged_words(&part[even..]) == 0
}
