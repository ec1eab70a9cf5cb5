// A name with the comma behind it, judged.
ghost use Rattle.std.specs.Prelude.{◌≡◌, ◌≤◌, ◌<◌, length};
ghost use Rattle.sheets.specs.declared.Place.TheVariants.{Start, Quoted};
ghost use Rattle.sheet_reading.specs.Judged.{NameIs};

use crate::Name;
use crate::bytes::Kinds;
use crate::runs::run_end;
use sheets::{COMMA, QUOTE};

impl Kinds {
    // From behind the first quote on. Two quotes stand for one, and are counted; a comma behind a quote ends the name.
    fn quoted_name(&self, text: &[u8], from: usize) -> Option<Name>
        requires { from ≤ length text.now }
        ensures { NameIs text.now Quoted from result }
    {
        let mut doubled = 0;
        let mut i = run_end(text, from, |b| self.is_quoted(b));
        // No `for`: a step is two quotes and the bytes behind them.
        loop {
            match &text[i..] {
                [QUOTE, QUOTE, ..] => {
                    doubled += 1;
                    i = run_end(text, i + 2, |b| self.is_quoted(b));
                }
                [QUOTE, COMMA, ..] => {
                    return Some(Name {
                        end: i + 2,
                        bytes: i + 1 - from - doubled,
                    });
                }
                _ => return None,
            }
        }
    }

    // The name that a row begins with.
    pub(crate) fn name_at(&self, text: &[u8], from: usize) -> Option<Name>
        requires { from < length text.now }
        ensures { NameIs text.now Start from result }
    {
        if text[from] == QUOTE {
            return self.quoted_name(text, from + 1);
        }
        let end = run_end(text, from, |b| self.is_plain(b));
        if *text.get(end)? != COMMA {
            return None;
        }
        Some(Name {
            end: end + 1,
            bytes: end + 1 - from,
        })
    }
}
