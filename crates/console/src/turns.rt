// The turns of a program that answers lines.
ghost use Rattle.std.specs.Prelude.{Bool, List};
ghost use Rattle.std.specs.List.{FoldsTo};
ghost use Rattle.console.specs.Turns.{Over};

// Calls `turn` until it says that no turn follows. A proved loop has to end, and nothing says that the input does: no run uses up its turns.
pub fn until<F: FnMut() -> bool>(mut turn: F)
    requires { F.IsAlwaysCallable turn }
    ensures { (said : List Bool) × (last : F) × FoldsTo F.step turn said last × Over said }
{
    for _ in 0..u64::MAX {
        if !turn() {
            return;
        }
    }
}
