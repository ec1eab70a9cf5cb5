// Why a call is refused, by the documents' numbers (document 01, 'Questions before a call, in order'; from 18 on document 02).
// specs/Refusals.antt has the same numbers.
ghost use Rattle.std.specs.Prelude.{◌≡◌};
ghost use Rattle.protocol.specs.Refusals.{number_of};

#[derive(Clone, Copy, Debug, PartialEq, Eq)]
pub enum Refusal {
    // Fewer than 1,988 words, or 2,113 for the cards.
    RecordShort = 1,
    // The record is not well formed, or the cards beside it.
    NotWellFormed = 2,
    // No such operation.
    NoOperation = 3,
    // A hub number that is not below the hub count.
    NoHub = 4,
    // The hub is not in state 2 to 4.
    NotInRing = 5,
    // Join: the hub is not outside.
    NotOutside = 6,
    // Leave: the hub's lock is taken.
    Locked = 7,
    // Leave: the hub is its own succ.
    LastHub = 8,
    // Deliver: nothing waits on the link.
    NoMessage = 9,
    // Deliver: the receiver, or the hub that a JOIN names, is not as required.
    NotExpected = 10,
    // 256 messages wait.
    MessagesFull = 11,
    // Ask: every ticket was given.
    TicketsUsedUp = 12,
    // Fresh: not 1 to 64 identifiers.
    IdentifierCount = 13,
    // Fresh: two identifiers are equal.
    IdentifierTwice = 14,
    // Owner: no hub holds the number.
    NoHolder = 15,
    // Roll call: following succ does not come back.
    NoWayRound = 16,
    // The lent output is too short.
    OutputShort = 17,
    // Fresh: the founder named is not below the hub count.
    NoFounder = 18,
    // Sheet: the text is none, or the names to be written are not one for each identifier.
    NoSheet = 19,
    // Sheet: an identifier is above 4294967295.
    IdentifierTooLarge = 20,
    // Sheet: there is too little room for what is to be written.
    RoomShort = 21,
    // Offer: the machine's card has a higher revision.
    RevisionLower = 22,
    // Offer: the machine's card has this revision, and another price.
    PriceDiffers = 23,
    // Offer: a new machine, and 512 cards are kept.
    CardsFull = 24,
    // Route: more than 64 numbers.
    RouteLong = 25,
    // Route: fewer places for outcomes than numbers.
    PlacesShort = 26,
}

// The number that a caller in C and a reader of `ringrun` gets.
impl From<Refusal> for u32 {
    ghost from_gives = { λ r n. n ≡ number_of r };

    fn from(r: Refusal) -> u32 {
        r as u32
    }
}
