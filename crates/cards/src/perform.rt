// The step that takes the cards along: the step on the record, and what its answer does to the cards.
ghost use Rattle.std.specs.Prelude.{◌≡◌, List, ◌++◌, ℕ, ◌≤◌, ◌<◌, length, drop};
ghost use Rattle.protocol.specs.declared.Answer.TheVariants.{Gone as GoneAnswer};
ghost use Rattle.protocol.specs.Record.{most_nodes, record_size, read};
ghost use Rattle.protocol.specs.WellFormed.{identifiers};
ghost use Rattle.protocol.specs.Calls.{step_call};
ghost use Rattle.protocol.specs.Cards.{following, after_call, step_cards};
ghost use Rattle.layout.specs.Form.{Valid};
ghost use Rattle.cardlayout.specs.Books.{Neat};
ghost use Rattle.card_checks.specs.Ready.{Ready};
ghost use Rattle.cards.specs.Movers.{Bound};

use crate::moves::{enter, leave};
use card_checks::{checked_names, is_marked_besides};
use protocol::form::{CARDS_AT, MARKS_AT, RECORD_WORDS};
use protocol::{Answer, Refusal};

// A gone answer. Where it would strike off the only member, the record is put back: w₀ is the record as it came.
fn depart(
    w: &mut [u32],
    k: &mut [u32],
    names: &[u32; 64],
    saved: &[u32; RECORD_WORDS],
    h: u32,
) -> Result<Answer, Refusal>
    requires { (Neat k.old) × (record_size ≤ length w.old) × (h < most_nodes) }
    ensures { (w₀ : List ℕ) → w₀ ≡ saved.now ++ drop record_size w.old → Ready (identifiers (read w₀)) names.now k.old → h < length (identifiers (read w₀)) → following w₀ k.old w.old (GoneAnswer h) ≡ record { outcome = result; slice = w.new; cards = k.new } }
{
    if !is_marked_besides(&k[MARKS_AT..CARDS_AT], h as usize) {
        w[..RECORD_WORDS].copy_from_slice(saved);
        return Err(Refusal::NotWellFormed);
    }
    leave(k, names, h);
    Ok(Answer::Gone(h))
}

// What an answer does to the cards. w is the record as the step left it, `saved` its words as they came. (w, k, names and saved are no struct: it
// would be made in `perform` alone and taken apart in `follow` and `depart`, whose contracts speak of each by itself.)
fn follow(
    w: &mut [u32],
    k: &mut [u32],
    names: &[u32; 64],
    saved: &[u32; RECORD_WORDS],
    a: Answer,
) -> Result<Answer, Refusal>
    requires { (Neat k.old) × (record_size ≤ length w.old) × (Bound most_nodes a) }
    ensures { (w₀ : List ℕ) → w₀ ≡ saved.now ++ drop record_size w.old → Ready (identifiers (read w₀)) names.now k.old → Bound (length (identifiers (read w₀))) a → following w₀ k.old w.old a ≡ record { outcome = result; slice = w.new; cards = k.new } }
{
    match a {
        Answer::Entered(h) => {
            enter(k, names, h);
            Ok(a)
        }
        Answer::Gone(h) => depart(w, k, names, saved, h),
        _ => Ok(a),
    }
}

// The command, on a record and cards that have passed questions 1 and 2.
fn perform(
    w: &mut [u32],
    k: &mut [u32],
    names: &[u32; 64],
    operation: u32,
    x: u32,
    y: u32,
) -> Result<Answer, Refusal>
    requires { (Valid w.old) × (Ready (identifiers (read w.old)) names.now k.old) }
    ensures { after_call w.old k.old (step_call w.old operation x y).slice (step_call w.old operation x y).outcome ≡ record { outcome = result; slice = w.new; cards = k.new } }
{
    let mut saved = [0u32; RECORD_WORDS];
    saved.copy_from_slice(&w[..RECORD_WORDS]);
    let a = steps::run(w, operation, x, y)?;
    follow(w, k, names, &saved, a)
}

// One command on the record, with its cards. Every two slices and every three numbers are taken; what is wrong is refused by its number, and a
// refusal changes no word of either.
pub fn step(w: &mut [u32], k: &mut [u32], operation: u32, x: u32, y: u32) -> Result<Answer, Refusal>
    ensures { step_cards w.old k.old operation x y ≡ record { outcome = result; slice = w.new; cards = k.new } }
{
    let names = checked_names(w, k)?;
    perform(w, k, &names, operation, x, y)
}
