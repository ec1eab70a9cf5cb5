// Why a call was refused, by its number and in words.
use protocol::Refusal;
use std::fmt;

#[derive(Clone, Copy)]
pub struct Refused(pub Refusal);

impl Refused {
    fn reason(&self) -> &'static str {
        match self.0 {
            Refusal::RecordShort => "record short",
            Refusal::NotWellFormed => "not well formed",
            Refusal::NoOperation => "no operation",
            Refusal::NoHub => "no hub",
            Refusal::NotInRing => "not in ring",
            Refusal::NotOutside => "not outside",
            Refusal::Locked => "locked",
            Refusal::LastHub => "last hub",
            Refusal::NoMessage => "no message",
            Refusal::NotExpected => "not expected",
            Refusal::MessagesFull => "messages full",
            Refusal::TicketsUsedUp => "tickets used up",
            Refusal::IdentifierCount => "identifier count",
            Refusal::IdentifierTwice => "identifier twice",
            Refusal::NoHolder => "no holder",
            Refusal::NoWayRound => "no way round",
            Refusal::OutputShort => "output short",
            Refusal::NoFounder => "no founder",
            Refusal::NoSheet => "no sheet",
            Refusal::IdentifierTooLarge => "identifier too large",
            Refusal::RoomShort => "room short",
            Refusal::RevisionLower => "revision lower",
            Refusal::PriceDiffers => "price differs",
            Refusal::CardsFull => "cards full",
            Refusal::RouteLong => "route long",
            Refusal::PlacesShort => "places short",
        }
    }
}

impl fmt::Display for Refused {
    fn fmt<W: fmt::Write>(&self, f: &mut fmt::Formatter<W>) -> fmt::Result {
        write!(f, "refused {} ({})", u32::from(self.0), self.reason())
    }
}
