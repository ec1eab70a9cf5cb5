// The line that is printed for a sheet.
ghost use Rattle.std.specs.Prelude.{◌≡◌, ◌≤◌, length};
ghost use Rattle.hubsheet.specs.Line.{founding_line as founding_line_spec, rows_line as rows_line_spec, Printed};

use crate::hubs::{Held, PLACES, counted};
use crate::places::ending;
use frames::{put, refusal_line};
use protocol::Refusal;
use sheets::Ending;
use texts::Text;

// More than the longest line: a frame of 64 hubs has 515 bytes with its LF.
const LINE: usize = 516;

// F0 and 8 digits a hub.
fn founding_line(identifiers: &[u32]) -> Text<LINE>
    requires { length identifiers.now ≤ 64 }
    ensures { result ≡ founding_line_spec identifiers.now }
{
    let mut line = Text::new();
    line.push(b"F0");
    for identifier in identifiers {
        let mut digits = [0u8; 8];
        put(&mut digits, *identifier);
        line.push(&digits);
    }
    line.push(b"\n");
    line
}

// The line for a sheet of these rows, whose identifiers fit or not: 20 before 21.
fn rows_line(fits: bool, rows: usize, identifiers: &[u32; PLACES]) -> Text<LINE>
    ensures { result ≡ rows_line_spec fits rows identifiers.now }
{
    if !fits {
        return refusal_line(u32::from(Refusal::IdentifierTooLarge));
    }
    if PLACES < rows {
        return refusal_line(u32::from(Refusal::RoomShort));
    }
    founding_line(&identifiers[..rows])
}

// The line for what is held at the end of the text. Behind a number there is one row more.
pub fn line_of(held: &mut Held) -> Text<LINE>
    ensures { Printed held.old.hubs held.old.identifiers result }
{
    let h = held.hubs;
    match ending(h.place) {
        Ending::Within => refusal_line(u32::from(Refusal::NoSheet)),
        Ending::BehindRows => rows_line(h.fits, h.rows, &held.identifiers),
        Ending::BehindNumber => {
            held.keep();
            rows_line(
                h.fits & h.value.is_some(),
                counted(h.rows),
                &held.identifiers,
            )
        }
    }
}
