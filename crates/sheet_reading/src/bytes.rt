// The kinds of bytes that a sheet tells apart.
ghost use Rattle.std.specs.Prelude.{◌≡◌};
ghost use Rattle.lists.specs.Basics.{table};
ghost use Rattle.sheet_reading.specs.Kinds.{kind_of, plain_byte, quoted_byte};

use sheets::{COMMA, CR, LF, QUOTE};

// Where a byte stands for itself: in every name, in a quoted name only, or in none.
#[derive(Clone, Copy, Debug, PartialEq, Eq)]
pub enum Kind {
    Plain,
    Quoted,
    Neither,
}

// The kind of each byte. One look into a table is what makes the runs fast: a chain of comparisons is mispredicted at each blank of a name.
// Whoever reads makes it once and lends it, since a constant would be laid out anew at each look.
#[derive(Drop)]
pub struct Kinds {
    of: [Kind; 256],
    ghost are: { of ≡ table 256 kind_of },
}

impl Kinds {
    // Zero byte and quote end every run of a name; LF, CR and comma end one that is not quoted.
    pub(crate) fn new() -> Kinds {
        let mut of = [Kind::Plain; 256];
        of[0] = Kind::Neither;
        of[usize::from(LF)] = Kind::Quoted;
        of[usize::from(CR)] = Kind::Quoted;
        of[usize::from(QUOTE)] = Kind::Neither;
        of[usize::from(COMMA)] = Kind::Quoted;
        Kinds { of }
    }

    // Does the byte stand for itself in a name without quotes?
    pub(crate) fn is_plain(&self, b: u8) -> bool
        ensures { result ≡ plain_byte b }
    {
        self.of[usize::from(b)] == Kind::Plain
    }

    // And in a quoted one?
    pub(crate) fn is_quoted(&self, b: u8) -> bool
        ensures { result ≡ quoted_byte b }
    {
        self.of[usize::from(b)] != Kind::Neither
    }
}
