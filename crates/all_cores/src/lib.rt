// Every core of a short list of rules, each as a number.

#![tactic(auto)]

ghost use Rattle.std.specs.Prelude.{◌≡◌, ◌≤◌, length};
ghost use Rattle.sets.specs.Onto.{onto};
ghost use Rattle.taskset.specs.Adding.{lists, Made};
ghost use Rattle.taskset.specs.Outcome.{shown_as, buffer_after};
ghost use Rattle.taskset.specs.Views.{lists_of};
ghost use Rattle.assignment.specs.Audsley.{problem};
ghost use Rattle.subsets.specs.Subsets.{short};
ghost use Rattle.all_cores.specs.Enumerating.{max_cores, cores_of, enumerating};
ghost use Rattle.all_cores.specs.EveryCore.{Enumerates};

use subsets::{SHORT, feasible_subsets, is_core};
use taskset::{Refusal, System, TaskSet};

// A short list never has more cores.
pub const MAX_CORES: usize = 924;

// Writes the cores into the front of a buffer, rising, and counts them. A core is a number, in which rule k counts 2 ^ k.
fn write_cores(system: System<'_>, out: &mut [u16]) -> usize
    requires few { length system.rules.now ≤ short }
    requires room { max_cores ≤ length out.old }
    ensures value { result ≡ length (cores_of (problem (lists_of system.entry))) }
    ensures buffer { out.new ≡ onto (cores_of (problem (lists_of system.entry))) out.old }
{
    let feasible = feasible_subsets(system);
    let mut count = 0;
    for set in 0..1usize << system.rules.len() {
        if is_core(&feasible, set) {
            out[count] = set as u16;
            count += 1;
        }
    }
    count
}

// Refusals 14, 13, 24 and 9, then every core. The set is lent, so it can't change.
pub fn all_cores(set: &TaskSet, out: &mut [u16]) -> Result<usize, Refusal>
    ensures value { result ≡ shown_as (enumerating set.now (length out.old)) }
    ensures buffer { out.new ≡ buffer_after (enumerating set.now (length out.old)) out.old }
    ensures says { Made set.now → Enumerates (lists set.now) result out.old out.new }
{
    let Some(system) = set.checked() else {
        return Err(Refusal::NotMade);
    };
    if system.tasks.is_empty() {
        return Err(Refusal::NoTasks);
    }
    if SHORT < system.rules.len() {
        return Err(Refusal::ManyRules);
    }
    if out.len() < MAX_CORES {
        return Err(Refusal::ShortBuffer);
    }
    Ok(write_cores(system, out))
}
