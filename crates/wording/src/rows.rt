// A hub's row, and a roll (docs/INSPECT.md, 'Answers').
use crate::names::{Pointer, state_name};
use std::fmt;

// The part that `hub_row` hands out: seven words, or none.
#[derive(Clone, Copy)]
pub struct HubRow<'a>(pub &'a [u32]);

impl fmt::Display for HubRow<'_> {
    fn fmt<W: fmt::Write>(&self, f: &mut fmt::Formatter<W>) -> fmt::Result {
        let [identifier, state, lock, flag, pred, succ, oldpred, ..] = self.0 else {
            return write!(f, "none");
        };
        let lock = if *lock == 0 { "free" } else { "taken" };
        let flag = if *flag == 0 { "down" } else { "up" };
        write!(
            f,
            "identifier {identifier}, {}, lock {lock}, flag {flag}, ",
            state_name(*state)
        )?;
        write!(
            f,
            "pred {}, succ {}, oldpred {}",
            Pointer(*pred),
            Pointer(*succ),
            Pointer(*oldpred)
        )
    }
}

// A roll's output is full of this number before the call, which is no hub: where it still stands nothing was written. The call is lent
// words, as C lends them, so a place has no room for an Option.
pub const UNWRITTEN: u32 = u32::MAX;

// The output of a roll call, each place behind a blank.
#[derive(Clone, Copy)]
pub struct Places<'a>(pub &'a [u32]);

#[derive(Clone, Copy)]
struct Place(u32);

impl fmt::Display for Place {
    fn fmt<W: fmt::Write>(&self, f: &mut fmt::Formatter<W>) -> fmt::Result {
        match self.0 {
            UNWRITTEN => f.write_str(" -"),
            written => write!(f, " {written}"),
        }
    }
}

// Eight places that nothing was written into go out as one text: a long output of a short roll has little else, and place by place it took 1.7 times as
// long as byte by byte.
impl fmt::Display for Places<'_> {
    fn fmt<W: fmt::Write>(&self, f: &mut fmt::Formatter<W>) -> fmt::Result {
        let (eights, rest) = self.0.as_chunks::<8>();
        for eight in eights {
            if eight.iter().all(|hub| *hub == UNWRITTEN) {
                f.write_str(" - - - - - - - -")?;
                continue;
            }
            for hub in eight {
                write!(f, "{}", Place(*hub))?;
            }
        }
        for hub in rest {
            write!(f, "{}", Place(*hub))?;
        }
        Ok(())
    }
}
