ghost use Rattle.std.specs.Prelude.{◌≡◌};
ghost use Rattle.protocol.specs.Record.{read};
ghost use Rattle.protocol.specs.Step.{step as step_spec};
ghost use Rattle.protocol.specs.Calls.{written, step_call};
ghost use Rattle.layout.specs.Form.{Valid};

use crate::asks::ask;
use crate::commands::{deliver, join, leave};
use protocol::{Answer, Refusal};

// 'operation 0 to 3? 3.' On a record that has passed questions 1 and 2. (A match and no table of functions: the numbers are the document's, and
// the commands take other arguments. Three numbers and no struct of them: so they come from C and from a line.)
pub fn run(w: &mut [u32], operation: u32, x: u32, y: u32) -> Result<Answer, Refusal>
    requires { Valid w.old }
    ensures { written w.old (step_spec (read w.old) operation x y) ≡ record { outcome = result; slice = w.new } }
{
    match operation {
        0 => ask(w, x, y),
        1 => join(w, x, y),
        2 => leave(w, x),
        3 => deliver(w, x, y),
        _ => Err(Refusal::NoOperation),
    }
}

// One command on the record: 'operation, x, y'. Every slice and every three numbers are taken; what is wrong is refused by its number, and
// a refusal changes no word.
pub fn step(w: &mut [u32], operation: u32, x: u32, y: u32) -> Result<Answer, Refusal>
    ensures { step_call w.old operation x y ≡ record { outcome = result; slice = w.new } }
{
    wellformed::questions(w)?;
    run(w, operation, x, y)
}
