// Texts that grow, of at most so many bytes: lines out of the bytes of an input, which may hold a part of one, or many; and lines that are
// written.
#![tactic(auto)]

ghost use Rattle.std.specs.Prelude.{◌≡◌, true, false, ℕ, List, [], ◌++◌, ◌<◌, ◌≤◌, ◌==◌, length, take, position, MatchOption};
ghost use Rattle.texts.specs.Lines.{gathered};

use std::fmt;
use std::marker::Model;

// The bytes of a text so far. The first N are kept and the rest is dropped, so that a line of any length costs no more than these.
#[derive(Clone, Drop)]
pub struct Text<const N: usize> {
    bytes: [u8; N],
    held: usize,
}

impl<const N: usize> Model for Text<N> {
    ghost Value = { List ℕ };

    ghost view = { λ t. take t.held t.bytes };

    ghost invariant = { λ t. t.held ≤ N };
}

// The place of the first LF.
fn line_end(input: &[u8]) -> Option<usize>
    ensures { result ≡ position (λ b. b == 10) input.now }
{
    input.iter().position(|b| *b == b'\n')
}

impl<const N: usize> Text<N> {
    pub fn new() -> Self
        ensures { result ≡ [] }
    {
        Text {
            bytes: [0; N],
            held: 0,
        }
    }

    pub fn as_slice(&self) -> &[u8]
        ensures bytes { result.now ≡ self.now }
        ensures few { length result.now ≤ N }
    {
        &self.bytes[..self.held]
    }

    // A new text begins.
    pub fn clear(&mut self)
        ensures { self.new ≡ [] }
    {
        self.held = 0;
    }

    // The bytes go behind those that are held, as many as there is room for.
    pub fn push(&mut self, bytes: &[u8])
        ensures kept { self.new ≡ take N (self.old ++ bytes.now) }
        ensures few { length self.old ≤ N }
    {
        let more = (N - self.held).min(bytes.len());
        let end = self.held + more;
        let all = &mut self.bytes[..];
        all[self.held..end].copy_from_slice(&bytes[..more]);
        self.held = end;
    }

    // The bytes of the input up to the next LF go behind those that are held. What follows an LF is left; without one the line goes on.
    pub fn gather<'a>(&mut self, input: &'a [u8]) -> Option<&'a [u8]>
        ensures bytes { MatchOption result (gathered N self.old input.now ≡ record { part = self.new; ended = false; left = [] }) (λ left. (gathered N self.old input.now ≡ record { part = self.new; ended = true; left = left.now }) × (length left.now < length input.now)) }
        ensures few { length self.new ≤ N }
    {
        let Some(end) = line_end(input) else {
            self.push(input);
            return None;
        };
        self.push(&input[..end]);
        Some(&input[end + 1..])
    }
}

impl<const N: usize> fmt::Write for Text<N> {
    ghost write_str_gives = { λ s bytes t. t ≡ take N (s ++ bytes) };

    fn write_str(&mut self, text: &str) -> fmt::Result {
        self.push(text.as_bytes());
        Ok(())
    }
}
