// The place that a byte leads to, by the rules of sheets/specs/Reader.antt, a function for each. (`number` and `number_quoted` differ in two places
// alone, and so do their rules there: one function with those for parameters would be read against neither.)
ghost use Rattle.std.specs.Prelude.{◌≡◌};
ghost use Rattle.sheets.specs.Reader.{unquoted as unquoted_spec, quoted as quoted_spec, closed as closed_spec, number as number_spec, digits as digits_spec, number_quoted as number_quoted_spec, row_end as row_end_spec, next as next_spec, effect as effect_spec, ending as ending_spec};
ghost use Rattle.sheets.specs.declared.Place.TheVariants.{Start, NumberOpened, Return};

use sheets::{COMMA, CR, Effect, Ending, LF, Place, QUOTE, bare, is_digit};

fn unquoted(b: u8) -> Place
    ensures { result ≡ unquoted_spec b }
{
    match b {
        COMMA => Place::Number,
        0 => Place::Wrong,
        _ if bare(b) => Place::Plain,
        _ => Place::Wrong,
    }
}

fn quoted(b: u8) -> Place
    ensures { result ≡ quoted_spec b }
{
    match b {
        QUOTE => Place::Closed,
        0 => Place::Wrong,
        _ => Place::Quoted,
    }
}

fn closed(b: u8) -> Place
    ensures { result ≡ closed_spec b }
{
    match b {
        QUOTE => Place::Quoted,
        COMMA => Place::Number,
        _ => Place::Wrong,
    }
}

fn row_end(b: u8) -> Place
    ensures { result ≡ row_end_spec b }
{
    if b == CR { Place::Return } else { Place::Wrong }
}

fn number(b: u8) -> Place
    ensures { result ≡ number_spec b }
{
    match b {
        QUOTE => Place::NumberOpened,
        _ if is_digit(b) => Place::Digits,
        _ => Place::Wrong,
    }
}

fn digits(b: u8) -> Place
    ensures { result ≡ digits_spec b }
{
    if is_digit(b) {
        Place::Digits
    } else {
        row_end(b)
    }
}

fn number_quoted(b: u8) -> Place
    ensures { result ≡ number_quoted_spec b }
{
    match b {
        QUOTE => Place::NumberClosed,
        _ if is_digit(b) => Place::NumberQuoted,
        _ => Place::Wrong,
    }
}

fn start(b: u8) -> Place
    ensures { result ≡ next_spec Start b }
{
    if b == QUOTE {
        Place::Opened
    } else {
        unquoted(b)
    }
}

fn number_opened(b: u8) -> Place
    ensures { result ≡ next_spec NumberOpened b }
{
    if is_digit(b) {
        Place::NumberQuoted
    } else {
        Place::Wrong
    }
}

fn returned(b: u8) -> Place
    ensures { result ≡ next_spec Return b }
{
    if b == LF { Place::Start } else { Place::Wrong }
}

#[tactic(auto, unfolding(sheets::specs::Reader::next))]
pub(crate) fn next(p: Place, b: u8) -> Place
    ensures { result ≡ next_spec p b }
{
    match p {
        Place::Start => start(b),
        Place::Plain => unquoted(b),
        Place::Opened | Place::Quoted => quoted(b),
        Place::Closed => closed(b),
        Place::Number => number(b),
        Place::Digits => digits(b),
        Place::NumberOpened => number_opened(b),
        Place::NumberQuoted => number_quoted(b),
        Place::NumberClosed => row_end(b),
        Place::Return => returned(b),
        Place::Wrong => Place::Wrong,
    }
}

#[tactic(auto, unfolding(sheets::specs::Reader::effect))]
pub(crate) fn effect(q: Place) -> Effect
    ensures { result ≡ effect_spec q }
{
    match q {
        Place::Plain | Place::Quoted => Effect::Letter,
        Place::Number => Effect::EndName,
        Place::Digits | Place::NumberQuoted => Effect::Figure,
        Place::Return => Effect::EndRow,
        Place::Start
        | Place::Opened
        | Place::Closed
        | Place::NumberOpened
        | Place::NumberClosed
        | Place::Wrong => Effect::Quiet,
    }
}

#[tactic(auto, unfolding(sheets::specs::Reader::ending))]
pub(crate) fn ending(p: Place) -> Ending
    ensures { result ≡ ending_spec p }
{
    match p {
        Place::Start => Ending::BehindRows,
        Place::Digits | Place::NumberClosed => Ending::BehindNumber,
        Place::Plain
        | Place::Opened
        | Place::Quoted
        | Place::Closed
        | Place::Number
        | Place::NumberOpened
        | Place::NumberQuoted
        | Place::Return
        | Place::Wrong => Ending::Within,
    }
}
