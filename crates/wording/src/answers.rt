// What a call gave (docs/INSPECT.md, 'Answers').
use crate::refusals::Refused;
use protocol::{Answer, Refusal, Tally};
use std::fmt;

// What was asked for, or why it was refused.
#[derive(Drop)]
pub struct Given<T>(pub Result<T, Refusal>);

impl<T: fmt::Display> fmt::Display for Given<T> {
    fn fmt<W: fmt::Write>(&self, f: &mut fmt::Formatter<W>) -> fmt::Result {
        match &self.0 {
            Ok(given) => given.fmt(f),
            Err(refusal) => Refused(*refusal).fmt(f),
        }
    }
}

// A number, behind what it is the number of: the hub that an owner query names, the length of a roll.
#[derive(Clone, Copy)]
pub struct Numbered(pub &'static str, pub u32);

impl fmt::Display for Numbered {
    fn fmt<W: fmt::Write>(&self, f: &mut fmt::Formatter<W>) -> fmt::Result {
        write!(f, "{} {}", self.0, self.1)
    }
}

// The answer of an accepted step. A quiet one has its kind alone, and only a found one has more than a hub.
#[derive(Clone, Copy)]
pub struct Answered(pub Answer);

impl fmt::Display for Answered {
    fn fmt<W: fmt::Write>(&self, f: &mut fmt::Formatter<W>) -> fmt::Result {
        match self.0 {
            Answer::Quiet => write!(f, "quiet"),
            Answer::Found {
                hub,
                number,
                ticket,
                hops,
            } => write!(
                f,
                "found: hub {hub}, number {number}, ticket {ticket}, hops {hops}"
            ),
            Answer::Entered(hub) => write!(f, "entered: hub {hub}"),
            Answer::Gone(hub) => write!(f, "gone: hub {hub}"),
            Answer::JoinTurnedAway(hub) => write!(f, "join turned away: hub {hub}"),
            Answer::LeaveTurnedAway(hub) => write!(f, "leave turned away: hub {hub}"),
            Answer::Joined(hub) => write!(f, "joined: hub {hub}"),
            Answer::Left(hub) => write!(f, "left: hub {hub}"),
        }
    }
}

// How many steps gave each kind of answer, and how many were refused.
#[derive(Clone, Copy)]
pub struct Counted(pub Tally);

impl fmt::Display for Counted {
    fn fmt<W: fmt::Write>(&self, f: &mut fmt::Formatter<W>) -> fmt::Result {
        let Tally {
            quiet,
            found,
            entered,
            gone,
            join_turned_away,
            leave_turned_away,
            joined,
            left,
            refused,
        } = self.0;
        write!(
            f,
            "counts: quiet {quiet}, found {found}, entered {entered}, gone {gone}, "
        )?;
        write!(
            f,
            "join turned away {join_turned_away}, leave turned away {leave_turned_away}, "
        )?;
        write!(f, "joined {joined}, left {left}, refused {refused}")
    }
}
