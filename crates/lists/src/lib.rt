// Choices by a test without a branch at the caller, so that loops over them have none. (The laws of tests, lists and counting that the crates
// above cite are in specs/.)
#![tactic(auto)]

ghost use Rattle.std.specs.Prelude.{◌≡◌};
ghost use Rattle.lists.specs.Basics.{when◌then◌else◌};

// One of two values, without a branch at the caller. (An `if` over the tests of a row, in its place, keeps the loop over rows from being vectorised:
// half as many instructions more.)
pub fn pick<T: Copy>(test: bool, a: T, b: T) -> T
    ensures { result ≡ (when test then a else b) }
{
    if test {
        return a;
    }
    b
}

// 1 where the test fails, so that failures can be merged by `|` and looked at once, at the end.
pub fn failure(test: bool) -> u32
    ensures { result ≡ (when test then 0 else 1) }
{
    pick(test, 0, 1)
}
