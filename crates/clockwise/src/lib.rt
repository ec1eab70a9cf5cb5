// Clockwise arithmetic on the ring of 32-bit numbers (document 01, 'Clockwise arithmetic').
#![tactic(auto)]

ghost use Rattle.std.specs.Prelude.{◌≡◌, ◌^◌};
ghost use Rattle.clockwise.specs.Clockwise.{dist, in_range};

// How far b is from a, clockwise.
#[tactic(auto, unfolding(crate::specs::Clockwise::dist))]
pub fn distance(a: u32, b: u32) -> u32
    ensures { result ≡ dist (2 ^ 32) a b }
{
    b.wrapping_sub(a)
}

// Whether v is in the interval (a, b], which is every number where a = b. The numbers themselves are compared: from a up to b, or, where b is
// below a, past zero. For every modulus that is the interval by distances (`range_within`).
pub fn in_interval(a: u32, b: u32, v: u32) -> bool
    ensures { result ≡ in_range a b v }
{
    if a == b {
        return true;
    }
    if a < b {
        return (a < v) & (v <= b);
    }
    (a < v) | (v <= b)
}
