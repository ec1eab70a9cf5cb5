// Numbers that come as bytes, as many as the caller has: identifiers to found a ring with, questions of a route.
ghost use Rattle.std.specs.Prelude.{◌≡◌, List, ℕ, ◌≤◌, ◌<◌, ◌/◌, length, take, MatchOption};
ghost use Rattle.protocol.specs.Bytes.{words_of};

use crate::load;
use std::marker::Model;

// The first `count` words of the room. (A type beside the `Text` of texts: they share `as_slice`, one line. What a text does with LF and with what is
// left over, and how words come out of bytes, is all the rest.)
#[derive(Drop)]
pub struct Words<const N: usize> {
    room: [u32; N],
    count: usize,
}

impl<const N: usize> Model for Words<N> {
    ghost Value = { List ℕ };

    ghost view = { λ w. take w.count w.room };

    ghost invariant = { λ w. w.count ≤ N };
}

impl<const N: usize> Words<N> {
    // All words of the bytes, if there is room for them. Up to three bytes that are left over are not read.
    pub fn of(bytes: &[u8]) -> Option<Words<N>>
        ensures { MatchOption result (N < length bytes.now / 4) (λ w. (w ≡ words_of bytes.now) × (length bytes.now / 4 ≤ N)) }
    {
        let count = bytes.len() / 4;
        if N < count {
            return None;
        }
        let mut room = [0u32; N];
        load(bytes, &mut room[..count]);
        Some(Words { room, count })
    }

    pub fn as_slice(&self) -> &[u32]
        ensures { result.now ≡ self.now }
    {
        &self.room[..self.count]
    }
}
