// Definitions and laws in specs/, and a function that goes with them.

#![tactic(auto)]

ghost use Rattle.std.specs.Prelude.{◌≡◌, ◌≤◌};
ghost use Rattle.sets.specs.Marks.{first, marked};

// The first n of N marks.
pub fn first<const N: usize>(n: usize) -> [bool; N]
    requires { n ≤ N }
    ensures { marked result ≡ first n }
{
    let mut marks = [false; N];
    marks[..n].fill(true);
    marks
}
