// The number of a row, judged. Where it is too large for an identifier, there is none.
ghost use Rattle.std.specs.Prelude.{◌≡◌, ◌≤◌, ◌<◌, length};
ghost use Rattle.sheets.specs.Grammar.{is_digit, worth};
ghost use Rattle.sheet_reading.specs.Runs.{between, RunTo};
ghost use Rattle.sheets.specs.declared.Place.TheVariants.{NumberOpened, Number as NumberPlace};
ghost use Rattle.sheet_reading.specs.Judged.{word_of, NumberIs, RunIs};

use crate::Run;
use crate::runs::run_end;
use sheets::{QUOTE, digit_value, is_digit};

// A number of ten figures or more: it fits a word, or it is too large, whatever follows.
fn large(text: &[u8], from: usize, value: usize) -> Run
    requires { (from ≤ length text.now) × (999999999 < value) }
    ensures { RunTo is_digit text.now from result.end × (result.value ≡ word_of (worth value (between from result.end text.now))) }
{
    let end = run_end(text, from, |b| is_digit(b));
    if end != from {
        return Run { end, value: None };
    }
    Run {
        end,
        value: u32::try_from(value).ok(),
    }
}

// The loop is left at the tenth figure, so that it need not look at each whether the number still fits. (A chain would have to carry place and value
// side by side, to leave with both.) A run of no digits is a run too, which ends where it begins: what asks for a number says so.
pub(crate) fn digits(text: &[u8], from: usize) -> Run
    requires { from ≤ length text.now }
    ensures { RunIs text.now from result }
{
    let mut value = 0;
    for i in from..text.len() {
        let b = text[i];
        if !is_digit(b) {
            return Run {
                end: i,
                value: u32::try_from(value).ok(),
            };
        }
        value = 10 * value + digit_value(b);
        if 999999999 < value {
            return large(text, i + 1, value);
        }
    }
    Run {
        end: text.len(),
        value: u32::try_from(value).ok(),
    }
}

// From behind the first quote on.
fn quoted_number(text: &[u8], from: usize) -> Option<Run>
    requires { from ≤ length text.now }
    ensures { NumberIs text.now NumberOpened from result }
{
    let d = digits(text, from);
    if d.end == from {
        return None;
    }
    if *text.get(d.end)? != QUOTE {
        return None;
    }
    Some(Run {
        end: d.end + 1,
        value: d.value,
    })
}

// The number behind a comma. Inlined, as `row_of` is.
#[inline(always)]
pub(crate) fn number_at(text: &[u8], from: usize) -> Option<Run>
    requires { from ≤ length text.now }
    ensures { NumberIs text.now NumberPlace from result }
{
    if *text.get(from)? == QUOTE {
        return quoted_number(text, from + 1);
    }
    let d = digits(text, from);
    if d.end == from {
        return None;
    }
    Some(d)
}
