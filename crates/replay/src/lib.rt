// Demand 3's program: a list of adding calls from a fresh task set, and solving at the end.

#![tactic(auto)]

ghost use Rattle.std.specs.Prelude.{◌≡◌};
ghost use Rattle.taskset.specs.Model.{no_lists, heard};
ghost use Rattle.taskset.specs.Adding.{fresh_set, run};
ghost use Rattle.verdict.specs.Verdict.{solving};
ghost use Rattle.verdict.specs.OneOrder.{OneOrder};
ghost use Rattle.replay.specs.Demand3.{Demand3};

use taskset::{Call, TaskSet};
use verdict::{Solved, solve};

// Each call on the set that the one before handed back, from a fresh one, and solving at the end.
#[tactic(auto, using(crate::specs::Replaying::run_turn, std::proofs::lemmas::Grind::common_steps))]
pub fn replay(calls: &[Call]) -> Solved
    ensures value { result ≡ solving (run fresh_set calls.now) }
    ensures demand3 { Demand3 calls.now result.verdict }
    ensures one_order { OneOrder (heard no_lists calls.now) result.verdict }
{
    let mut set = TaskSet::fresh();
    for call in calls {
        set = set.add(*call).set;
    }
    solve(set)
}
