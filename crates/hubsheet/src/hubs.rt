// A sheet that arrives in pieces: what is kept of the bytes that were read. Names are dropped, and identifiers behind the 64th; so a sheet of any
// length costs no more room than this.
ghost use Rattle.std.specs.Prelude.{◌≡◌, ◌+◌, min, set};
ghost use Rattle.std.specs.Option.{unwrap_or};
ghost use Rattle.hubsheet.specs.Held.{grown as grown_spec, Begun, Fed, Feeds};

use crate::places::{effect, next};
use sheets::{Effect, Place};

// A ring has 64 hubs at most.
pub const PLACES: usize = 64;

// Where the reader stands, the rows so far (65 for more than 64), the number that is being read, if it fits a word, and whether all numbers so far
// fit one, those of rows behind the 64th too, which are not kept.
#[derive(Clone, Copy)]
pub struct Hubs {
    pub place: Place,
    pub rows: usize,
    pub value: Option<u32>,
    pub fits: bool,
}

// A figure more. (sheets' digit_value gives a usize, which goes into a u32 by a cast alone.)
fn grown(value: Option<u32>, b: u8) -> Option<u32>
    ensures { result ≡ grown_spec value b }
{
    value?
        .checked_mul(10)?
        .checked_add(u32::from(b.saturating_sub(b'0')))
}

// A row more.
pub fn counted(rows: usize) -> usize
    ensures { result ≡ min (rows + 1) 65 }
{
    rows.min(PLACES) + 1
}

// All that is held of a sheet: where it stands, and the identifiers of its rows. (An array and the rows beside it, no slice: nothing may allocate, and
// rows behind the 64th are counted too, up to 65.)
#[derive(Drop)]
pub struct Held {
    pub hubs: Hubs,
    pub identifiers: [u32; PLACES],
}

impl Held {
    // Before the first byte.
    pub fn begun() -> Held
        ensures { Begun result.hubs }
    {
        Held {
            hubs: Hubs {
                place: Place::Start,
                rows: 0,
                value: Some(0),
                fits: true,
            },
            identifiers: [0; PLACES],
        }
    }

    // The number of a row, where there is a place for it; for one that no word has room for, which is refused before it is used, the largest word.
    pub fn keep(&mut self)
        ensures hubs { self.new.hubs ≡ self.old.hubs }
        ensures identifiers { self.new.identifiers ≡ set self.old.identifiers self.old.hubs.rows (unwrap_or self.old.hubs.value 4294967295) }
    {
        if self.hubs.rows < PLACES {
            self.identifiers[self.hubs.rows] = self.hubs.value.unwrap_or(u32::MAX);
        }
    }

    // A byte more, by the effect of the place that it leads to.
    #[tactic(auto, unfolding(crate::specs::Held::after_spec, crate::specs::Held::kept_by))]
    fn step(&mut self, b: u8)
        ensures { Fed self.old.hubs self.old.identifiers b self.new.hubs self.new.identifiers }
    {
        self.hubs.place = next(self.hubs.place, b);
        match effect(self.hubs.place) {
            Effect::Quiet | Effect::Letter => {}
            Effect::EndName => self.hubs.value = Some(0),
            Effect::Figure => self.hubs.value = grown(self.hubs.value, b),
            Effect::EndRow => {
                self.keep();
                self.hubs.rows = counted(self.hubs.rows);
                self.hubs.fits &= self.hubs.value.is_some();
            }
        }
    }

    // A piece of the sheet more.
    pub fn feed(&mut self, text: &[u8])
        ensures { Feeds self.old.hubs self.old.identifiers text.now self.new.hubs self.new.identifiers }
    {
        for b in text {
            self.step(*b);
        }
    }
}
