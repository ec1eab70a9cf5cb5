// The names to be written: is there one for each identifier, and what is in it?
ghost use Rattle.std.specs.Prelude.{◌≡◌, ◌<◌};
ghost use Rattle.lists.specs.Basics.{every};
ghost use Rattle.sheets.specs.Grammar.{bare as bare_spec};
ghost use Rattle.sheets.specs.Writer.{first_name, behind_name, zeros as zeros_spec, ends_well as ends_well_spec, names_for as names_for_spec};
ghost use Rattle.sheet_writing.specs.Scanning.{quotes as quotes_spec, scanned};

use sheets::{QUOTE, bare};

// A `for`, since the chain that filters and counts makes writing a sheet take 1.09 times as long.
fn zeros(names: &[u8]) -> usize
    ensures { result ≡ zeros_spec names.now }
{
    let mut n = 0;
    for b in names {
        n += usize::from(*b == 0);
    }
    n
}

fn ends_well(names: &[u8]) -> bool
    ensures { result ≡ ends_well_spec names.now }
{
    match names.last() {
        Some(b) => *b == 0,
        None => true,
    }
}

pub(crate) fn names_for(names: &[u8], count: usize) -> bool
    ensures { result ≡ names_for_spec names.now count }
{
    zeros(names) == count && ends_well(names)
}

// How long the first name is, how many quotes it has, and whether it may stand unquoted. (A type beside `Name`: this is what is counted
// before the name is cut off; that has the bytes, and says that the counts are theirs.)
#[derive(Clone, Copy)]
struct Scan {
    length: usize,
    quotes: usize,
    plain: bool,
}

// All three in one pass: a chain for each, three in all, makes writing a sheet take 1.3 times as long.
fn scan_name(names: &[u8]) -> Scan
    ensures { result ≡ scanned (first_name names.now) }
{
    let mut quotes = 0;
    let mut plain = true;
    for (i, b) in names.iter().enumerate() {
        if *b == 0 {
            return Scan {
                length: i,
                quotes,
                plain,
            };
        }
        quotes += usize::from(*b == QUOTE);
        plain &= bare(*b);
    }
    Scan {
        length: names.len(),
        quotes,
        plain,
    }
}

// A name, and what is known of it before it is written: how many quotes it has, and whether it may stand unquoted.
#[derive(Clone, Copy)]
pub(crate) struct Name<'a> {
    pub bytes: &'a [u8],
    pub quotes: usize,
    pub plain: bool,
    ghost counted: { quotes ≡ quotes_spec bytes.now },
    ghost looked_at: { plain ≡ every bare_spec bytes.now },
}

impl<'a> Name<'a> {
    // The name at the front of the bytes, up to its zero byte, and what is behind that.
    pub fn next(names: &'a [u8]) -> (Name<'a>, &'a [u8])
        requires { 0 < zeros_spec names.now }
        ensures name { result.0.bytes.now ≡ first_name names.now }
        ensures behind { result.1.now ≡ behind_name names.now }
    {
        let s = scan_name(names);
        let (bytes, rest) = names.split_at(s.length);
        let name = Name {
            bytes,
            quotes: s.quotes,
            plain: s.plain,
        };
        (name, &rest[1..])
    }
}
