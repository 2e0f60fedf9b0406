// Sensitivity: how long a task may run with an order left that keeps every rule and meets every deadline.

#![tactic(auto)]

ghost use Rattle.std.specs.Prelude.{◌≡◌, ◌+◌, ◌-◌, ◌*◌, ◌≤◌, ◌<◌, length};
ghost use Rattle.sets.specs.Marks.{marked, first};
ghost use Rattle.taskset.specs.Refusals.{max_period};
ghost use Rattle.taskset.specs.Adding.{lists, Made};
ghost use Rattle.taskset.specs.Views.{lists_of};
ghost use Rattle.sensitivity.specs.Longest.{least_execution, longest, longest_of};
ghost use Rattle.sensitivity.specs.Sensitivity.{Sensitivity};
ghost use Rattle.sensitivity.specs.Halving.{Halves};

use assignment::{Search, fill_levels};
use taskset::{MAX_RULES, MAX_TASKS, Refusal, System, Task, TaskIndex, TaskSet};

// So many trials are enough for the longest range: 1,000,000 figures and the answer none are 1,000,001 answers, fewer than 2²⁰.
const TRIALS: usize = 20;

// What trials have told of a task's execution times: those up to `accepted` leave an order, those from `refused` on don't. At first
// these two are just outside the range, below its floor and above the period. The tasks are the set's, with the execution time that
// was tried last in the task's row. The search with `refused` got stuck at `stuck`, where at first no level is filled, and with a
// shorter one it may go on from there.
#[derive(Clone, Copy)]
struct Halving {
    tasks: [Task; MAX_TASKS],
    accepted: u64,
    refused: u64,
    stuck: Search,
}

// The least execution time that is asked about, document 02's floor.
fn least_execution(task: &Task) -> u64
    ensures { result ≡ least_execution task.now }
{
    task.longest_section().max(1)
}

impl Halving {
    // Nothing is tried yet.
    fn start(system: System<'_>, task: TaskIndex) -> Halving
        requires { task.0 < length system.tasks.now }
        ensures halves { Halves (lists_of system.entry) task.0 result }
        ensures range { result.refused ≤ result.accepted + max_period + 1 }
    {
        let own = &system.tasks[task.0];
        let mut tasks = [Task::default(); MAX_TASKS];
        tasks[..system.tasks.len()].copy_from_slice(system.tasks);
        Halving {
            tasks,
            accepted: least_execution(own) - 1,
            refused: own.period + 1,
            stuck: Search::fresh(system.tasks.len()),
        }
    }

    // The execution time in the middle is tried.
    fn try_middle(&mut self, system: System<'_>, active: &[bool; MAX_RULES], task: TaskIndex)
        requires task_in_bounds { task.0 < length system.tasks.now }
        requires every_rule { marked active.now ≡ first (length system.rules.now) }
        requires open { self.old.accepted + 2 ≤ self.old.refused }
        requires halves { Halves (lists_of system) task.0 self.old }
        ensures halves { Halves (lists_of system.entry) task.0 self.new }
        ensures narrower { 2 * (self.new.refused - self.new.accepted) ≤ self.old.refused - self.old.accepted + 1 }
    {
        let middle = self.accepted + (self.refused - self.accepted) / 2;
        self.tasks[task.0].execution = middle;
        let from = self.stuck;
        let changed = System {
            tasks: &self.tasks[..system.tasks.len()],
            rules: system.rules,
        };
        let tried = fill_levels(changed, active, None, from);
        if tried.free == 0 {
            self.accepted = middle;
            return;
        }
        self.refused = middle;
        self.stuck = tried;
    }
}

// The greatest execution time of a task, from its longest section, at least 1, to its period, that leaves an order.
pub fn longest(system: System<'_>, task: TaskIndex) -> Option<u64>
    requires { task.0 < length system.tasks.now }
    ensures { result ≡ longest (lists_of system.entry) task.0 }
{
    let active = sets::first(system.rules.len());
    let mut halving = Halving::start(system, task);
    for _ in 0..TRIALS {
        if halving.accepted + 1 < halving.refused {
            halving.try_middle(system, &active, task);
        }
    }
    if halving.accepted < least_execution(&system.tasks[task.0]) {
        return None;
    }
    Some(halving.accepted)
}

// Refusals 14 and 11, then the greatest execution time that the task may have, or none. The one in its row plays no part in that.
// The set is lent, so it can't change.
pub fn longest_execution(set: &TaskSet, task: TaskIndex) -> Result<Option<u64>, Refusal>
    ensures value { result ≡ longest_of set.now task.0 }
    ensures says { Made set.now → Sensitivity (lists set.now) task.0 result }
{
    let Some(system) = set.checked() else {
        return Err(Refusal::NotMade);
    };
    if system.tasks.len() <= task.0 {
        return Err(Refusal::NoSuchTask);
    }
    Ok(longest(system, task))
}
