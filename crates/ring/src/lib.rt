// The ring engine as its callers see it: six calls on a lent record of 1,988 words (documents 01 and 02), the step with a tally, two calls for a
// route's questions, five that lend price cards beside the record, and two for the office's list of hubs.
//
// None of them asks for anything: each takes slices of any length, any words in them and any numbers, and what is wrong is refused by
// the documents' numbers. Their contracts are equations with the meaning in protocol/specs/Calls.antt:
//
//     fresh(record, identifiers, founder)         fresh_by_call  founds a ring of these identifiers, by the hub that is named, or by the one
//                                                                with the smallest (`founder_of`)
//     fresh_by(record, identifiers, founder)      fresh_by_call  the same, by the hub that is named
//     step(record, operation, x, y)               step_call      ask, join, leave or deliver
//     owner(record, number)                       owner_call     the hub that holds a number
//     hub_row(record, hub)                        row_call       the seven words of a hub, in the caller's own slice
//     roll_call(record, hub, output)              roll_call      the hubs around the ring, from a hub on
//     counted_step(record, operation, x, y, tally)  step_call, counted
//
// those for a route in protocol/specs/Batch.antt (cards are not lent to them, since a question moves none):
//
//     ask_route(record, hub, numbers, outcomes)                 batch_call     the numbers asked at a hub, an outcome of six words for each
//     counted_ask_route(record, hub, numbers, outcomes, tally)  batch_call, counted_all
//
// those with cards in protocol/specs/Cards.antt:
//
//     fresh_cards(record, cards, identifiers, founder)        fresh_by_cards  a ring and its card slice
//     fresh_by_cards(record, cards, identifiers, founder)     fresh_by_cards  the same, by the hub that is named
//     step_cards(record, cards, operation, x, y)              step_cards     a step, and the cards change hub with it
//     offer(record, cards, machine, revision, price)          offer_call     a card for a machine
//     counted_step_cards(record, cards, operation, x, y, tally)  step_cards, counted
//
// and those for the sheet in sheets/specs/Calls.antt:
//
//     read_sheet(text, identifiers, names)        read_call      the hubs of a sheet
//     write_sheet(names, identifiers, text)       write_call     the sheet of hubs
#![tactic(auto)]

mod foundings;

pub use batch_tally::ask as counted_ask_route;
pub use batches::ask as ask_route;
pub use card_offers::offer;
pub use card_tally::step as counted_step_cards;
pub use cards::{fresh as fresh_cards, step as step_cards};
pub use founding::fresh;
pub use foundings::{fresh_by, fresh_by_cards};
pub use queries::{hub_row, owner, roll_call};
pub use sheet_reading::read_sheet;
pub use sheet_writing::write_sheet;
pub use steps::step;
pub use tally::step as counted_step;
