// Solving a task set: a priority order with its responses, or an unschedulability core.

#![tactic(auto)]

ghost use Rattle.std.specs.Prelude.{◌≡◌, ◌≤◌, ◌<◌, length};
ghost use Rattle.sets.specs.Marks.{first, marked};
ghost use Rattle.taskset.specs.Adding.{lists};
ghost use Rattle.taskset.specs.Views.{lists_of};
ghost use Rattle.assignment.specs.LateTasks.{unassignable};
ghost use Rattle.assignment.specs.Audsley.{feasible, problem};
ghost use Rattle.assignment.specs.Search.{Ended};
ghost use Rattle.verdict.specs.Core.{tried, by_place, cut_of};
ghost use Rattle.verdict.specs.Verdict.{refused, verdict_on, deciding, solving};
ghost use Rattle.verdict.specs.Correct.{Correct, Explains};
ghost use Rattle.verdict.specs.OneOrder.{OneOrder};
ghost use Rattle.verdict.specs.Cut.{Cutting, core_marks};

use assignment::{Hints, Search, fill_levels, passing, trial};
use taskset::{MAX_RULES, MAX_TASKS, Refusal, System, TaskIndex, TaskSet};

// What a verdict gives.
#[derive(Clone, Copy, Debug, PartialEq, Eq)]
pub enum Finding {
    Order,
    Core,
}

// How solving ends, with the lists that document 01 has handed over in any case: the order's task indices with their responses,
// highest level first, and the core's marks by rule.
#[derive(Clone, Copy)]
pub struct Verdict {
    pub answer: Result<Finding, Refusal>,
    pub order: [TaskIndex; MAX_TASKS],
    pub responses: [u64; MAX_TASKS],
    pub core: [bool; MAX_RULES],
}

// A verdict on a system, and the tasks left without a level where no rule is active.
#[derive(Clone, Copy)]
pub struct Decided {
    pub verdict: Verdict,
    pub left: [bool; MAX_TASKS],
}

// What solving a set hands over: the verdict, and the set as it was.
#[derive(Clone, Copy)]
pub struct Solved {
    pub verdict: Verdict,
    pub set: TaskSet,
}

// A core being cut down: the rules still in it, where the search with them got stuck, the tasks known to meet their deadline
// with the others left there above them, and another search: the last that found an order, once one did.
#[derive(Clone, Copy)]
pub struct Cut {
    pub active: [bool; MAX_RULES],
    pub stuck: Search,
    pub known: [bool; MAX_TASKS],
    pub other: Search,
}

// Why there is no order: the core, and the tasks left without a level where no rule is active.
#[derive(Clone, Copy)]
pub struct Unschedulable {
    pub core: [bool; MAX_RULES],
    pub left: [bool; MAX_TASKS],
}

impl Cut {
    // No rule of active ones that have no valid order is tried yet: from where the search with them got stuck.
    pub fn start(system: System<'_>, active: [bool; MAX_RULES], stuck: Search) -> Cut
        requires ended { Ended (problem (lists_of system)) (marked active) stuck }
        requires le_free { 1 ≤ stuck.free }
        ensures cutting { Cutting (problem (lists_of system.entry)) result }
        ensures active { result.active ≡ active }
    {
        let known = passing(system.without_rules(), &stuck.left);
        Cut {
            active,
            stuck,
            known,
            other: stuck,
        }
    }

    // Rule k tried: out for good where the other rules still have no valid order. Where its two tasks are not both left it changes
    // nothing, and no search is made.
    pub fn try_rule(&mut self, system: System<'_>, k: usize)
        requires k_in_bounds { k < length system.rules.now }
        requires cuts { Cutting (problem (lists_of system)) self.old }
        ensures active { marked self.new.active ≡ tried (feasible (problem (lists_of system.entry))) (marked self.old.active) k }
        ensures cutting { Cutting (problem (lists_of system.entry)) self.new }
    {
        let was = self.active[k];
        self.active[k] = false;
        let rule = &system.rules[k];
        if !(self.stuck.left[rule.higher.0] & self.stuck.left[rule.lower.0]) {
            return;
        }
        let hints = Hints {
            known: &self.known,
            other: &self.other,
        };
        let tried = fill_levels(system, &self.active, Some(hints), self.stuck);
        if tried.free == 0 {
            self.active[k] = was;
            self.other = tried;
            return;
        }
        self.stuck = tried;
    }

    // The rules that stay when each is tried in turn, on what is left.
    #[tactic(auto, unfolding(crate::specs::Core::cut_of))]
    fn cut_down(mut self, system: System<'_>) -> [bool; MAX_RULES]
        requires { Cutting (problem (lists_of system)) self }
        ensures { marked result ≡ cut_of (feasible (problem (lists_of system.entry))) by_place (marked self.active) (length system.entry.rules.now) }
    {
        for k in 0..system.rules.len() {
            self.try_rule(system, k);
        }
        self.active
    }
}

// The core, from where the search with every rule got stuck: empty where the search gets stuck without rules too. And the tasks
// that the search without rules leaves.
fn core(system: System<'_>, active: [bool; MAX_RULES], stuck: Search) -> Unschedulable
    requires active_value { marked active ≡ first (length system.rules.now) }
    requires ended { Ended (problem (lists_of system)) (marked active) stuck }
    requires le_free { 1 ≤ stuck.free }
    ensures core_value { result.core ≡ core_marks (lists_of system.entry) }
    ensures left { marked result.left ≡ unassignable (lists_of system.entry) }
{
    let none = [false; MAX_RULES];
    let left = stuck.left;
    if system.rules.is_empty() {
        return Unschedulable { core: none, left };
    }
    let known = passing(system.without_rules(), &left);
    let hints = Hints {
        known: &known,
        other: &stuck,
    };
    let other = fill_levels(system, &none, Some(hints), stuck);
    let left = other.left;
    if 0 < other.free {
        return Unschedulable { core: none, left };
    }
    let cut = Cut {
        active,
        stuck,
        known,
        other,
    };
    let core = cut.cut_down(system);
    Unschedulable { core, left }
}

// Refused: the lists are all 0 and no.
fn refused(refusal: Refusal) -> Verdict
    ensures { result ≡ refused refusal }
{
    Verdict {
        answer: Err(refusal),
        order: [TaskIndex(0); MAX_TASKS],
        responses: [0; MAX_TASKS],
        core: [false; MAX_RULES],
    }
}

// The verdict on a system with tasks, an order or a core, and who is left without a level where no rule is active.
#[tactic(auto, using(crate::specs::Solving::gives_core))]
fn verdict_on(system: System<'_>) -> Decided
    ensures verdict_value { result.verdict ≡ verdict_on (lists_of system.entry) }
    ensures left { marked result.left ≡ unassignable (lists_of system.entry) }
{
    let active = sets::first(system.rules.len());
    let found = trial(system, &active);
    if 0 < found.free {
        let Unschedulable { core, left } = core(system, active, found);
        return Decided {
            verdict: Verdict {
                answer: Ok(Finding::Core),
                order: [TaskIndex(0); MAX_TASKS],
                responses: [0; MAX_TASKS],
                core,
            },
            left,
        };
    }
    let Search {
        order,
        responses,
        left,
        ..
    } = found;
    Decided {
        verdict: Verdict {
            answer: Ok(Finding::Order),
            order,
            responses,
            core: [false; MAX_RULES],
        },
        left,
    }
}

// The verdict on a system: refusal 13, then an order or a core. And who is left without a level where no rule is active.
#[tactic(auto, using(crate::specs::Solving::refusing))]
pub fn decide(system: System<'_>) -> Decided
    ensures verdict_value { result.verdict ≡ deciding (lists_of system.entry) }
    ensures left { marked result.left ≡ unassignable (lists_of system.entry) }
    ensures says { 1 ≤ length system.entry.tasks.now → Correct (lists_of system.entry) result.verdict }
    ensures one_order { OneOrder (lists_of system.entry) result.verdict }
{
    if system.tasks.is_empty() {
        return Decided {
            verdict: refused(Refusal::NoTasks),
            left: [false; MAX_TASKS],
        };
    }
    verdict_on(system)
}

// Refusals 14 and 13, then the verdict.
#[tactic(auto, unfolding(crate::specs::Verdict::solving, crate::specs::Correct::Explains))]
pub fn solve(set: TaskSet) -> Solved
    ensures value { result ≡ solving set }
    ensures says { Explains set result }
    ensures one_order { OneOrder (lists set) result.verdict }
{
    let Some(system) = set.checked() else {
        return Solved {
            verdict: refused(Refusal::NotMade),
            set,
        };
    };
    let verdict = decide(system).verdict;
    Solved { verdict, set }
}
