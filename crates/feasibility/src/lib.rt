// The call of a trial: is there an order that keeps the active rules and meets every deadline?

#![tactic(auto)]

ghost use Rattle.std.specs.Prelude.{◌≡◌};
ghost use Rattle.sets.specs.Marks.{marked};
ghost use Rattle.taskset.specs.Adding.{lists, Made};
ghost use Rattle.taskset.specs.Views.{lists_of};
ghost use Rattle.assignment.specs.Audsley.{feasible, problem};
ghost use Rattle.feasibility.specs.Trying.{trying};
ghost use Rattle.feasibility.specs.Decides.{Decides};

use assignment::trial;
use taskset::{MAX_RULES, Refusal, System, TaskSet};

// Some order keeps the active rules and meets every deadline.
pub fn is_feasible(system: System<'_>, active: &[bool; MAX_RULES]) -> bool
    ensures { result ≡ feasible (problem (lists_of system.entry)) (marked active.now) }
{
    trial(system, active).free == 0
}

// Refusal 14, then whether some order keeps every active rule and meets every deadline. Marks at places without a rule are not
// read. Both are lent, so neither can change.
pub fn try_rules(set: &TaskSet, active: &[bool; MAX_RULES]) -> Result<bool, Refusal>
    ensures value { result ≡ trying set.now active.now }
    ensures says { Made set.now → Decides (lists set.now) (marked active.now) result }
{
    let Some(system) = set.checked() else {
        return Err(Refusal::NotMade);
    };
    Ok(is_feasible(system, active))
}
