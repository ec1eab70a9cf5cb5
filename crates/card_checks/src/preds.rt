// Reaches out of the record: each member's gap back to its pred. Where these preds are members, and the gaps go round the circle just once, none of
// them is too wide (cardlayout/specs/Circle.antt). So it is in every record that a ring reaches, but where a JOINPOINT waits: then they are searched.
ghost use Rattle.std.specs.Prelude.{IfSome};
ghost use Rattle.card_checks.specs.Preds.{Reaches};

use crate::members::Members;
use crate::owners::gap;
use lists::pick;
use protocol::form::{ROW_WORDS, ROWS_AT};

// The place of pred in a row.
const PRED_AT: usize = 4;

// The gaps back to the preds, where they are the members' reaches. (One loop for all that is asked of a row: a chain for each would read the rows
// three times.)
fn by_preds(members: &Members) -> Option<[u32; 64]>
    ensures { IfSome result (Reaches members.now.names.now members.now.marks.now members.now.count) }
{
    let mut reaches = [0u32; 64];
    let mut ok = true;
    let mut circle: u64 = 0;
    for h in 0..members.count {
        let pred = (members.record[ROWS_AT + ROW_WORDS * h + PRED_AT] % 64) as usize;
        let member = members.marks[h] == 1;
        let far = gap(members.names[pred], members.names[h]);
        ok &= !member | (members.marks[pred] == 1);
        circle += pick(member, u64::from(far) + 1, 0);
        reaches[h] = far;
    }
    if ok & (circle == 4294967296) {
        return Some(reaches);
    }
    None
}

// The reach of each member. (A match, as in machines.rt.)
pub(crate) fn member_reaches(members: &Members) -> [u32; 64]
    ensures { Reaches members.now.names.now members.now.marks.now members.now.count result }
{
    match by_preds(members) {
        Some(reaches) => reaches,
        None => members.reaches(),
    }
}
