// The revised Audsley assignment: levels filled from the lowest upward, for any active rules; and the response of a task left.

#![tactic(auto)]

mod choosing;
mod level;

ghost use Rattle.std.specs.Prelude.{◌≡◌, None, [], ◌↔◌, ◌≤◌, ◌<◌};
ghost use Rattle.sets.specs.Marks.{marked};
ghost use Rattle.taskset.specs.Refusals.{max_tasks};
ghost use Rattle.taskset.specs.Views.{lists_of};
ghost use Rattle.assignment.specs.Orders.{SomeOrder};
ghost use Rattle.assignment.specs.Audsley.{ready, assign, problem, bare};
ghost use Rattle.assignment.specs.Search.{Indexed, lowest_free, placed, Holds, Searched, Ended, HoldsLevels, Assigns, Helps};

pub use choosing::{late_response, passing};
pub use level::OpenLevel;
use response::Resources;
use taskset::{MAX_RULES, MAX_TASKS, PriorityLevel, Rule, System, TaskIndex};

// Who takes a level, with its response there.
#[derive(Clone, Copy, Debug, PartialEq, Eq)]
pub struct Choice {
    pub task: TaskIndex,
    pub response: u64,
}

// A search: a task's index and its response for each priority level, highest first, of which the first `free` are not filled
// yet; and the tasks left without a level. Document 01 hands places and responses on as two arrays.
#[derive(Clone, Copy)]
pub struct Search {
    pub order: [TaskIndex; MAX_TASKS],
    pub responses: [u64; MAX_TASKS],
    pub free: usize,
    pub left: [bool; MAX_TASKS],
}

// What spares a search responses: tasks known to meet their deadline with the others left above them, and another search, whose
// responses are not read. The levels then go to any task that may take them.
#[derive(Clone, Copy)]
pub struct Hints<'a> {
    pub known: &'a [bool; MAX_TASKS],
    pub other: &'a Search,
}

// The tasks left for which every task that an active rule puts below them has a level.
#[tactic(auto, using(crate::specs::Ready::ready_ends))]
fn ready(rules: &[Rule], active: &[bool; MAX_RULES], left: &[bool; MAX_TASKS]) -> [bool; MAX_TASKS]
    requires { Indexed rules.now }
    ensures { marked result ≡ ready rules.now (marked active.now) (marked left.now) }
{
    let mut ready = *left;
    for (k, rule) in rules.iter().enumerate() {
        ready[rule.higher.0] &= !(active[k] & left[rule.lower.0]);
    }
    ready
}

// The lowest of the levels that are not filled yet.
fn lowest_free(free: usize) -> PriorityLevel
    requires { 1 ≤ free }
    ensures { result ≡ lowest_free free }
{
    PriorityLevel(free - 1)
}

impl Search {
    // A search among n tasks with no level filled.
    pub fn fresh(n: usize) -> Search
        requires { n ≤ max_tasks }
        ensures { Holds n [] [] result }
    {
        Search {
            order: [TaskIndex(0); MAX_TASKS],
            responses: [0; MAX_TASKS],
            free: n,
            left: sets::first(n),
        }
    }

    // A task takes the lowest free level.
    fn place(&mut self, choice: Choice)
        requires free { (1 ≤ self.old.free) × (self.old.free ≤ max_tasks) }
        requires task_in_bounds { choice.task.0 < max_tasks }
        ensures { self.new ≡ placed self.old choice }
    {
        let level = lowest_free(self.free);
        self.order[level.0] = choice.task;
        self.responses[level.0] = choice.response;
        self.free = level.0;
        self.left[choice.task.0] = false;
    }
}

// Goes on with a search until every level is filled or nobody may take the next. Without hints it is the assignment's own.
pub fn fill_levels(
    system: System<'_>,
    active: &[bool; MAX_RULES],
    hints: Option<Hints<'_>>,
    from: Search,
) -> Search
    requires searched { Searched (problem (lists_of system)) (marked active.now) from }
    requires helped { Helps (bare system.tasks.now) (marked from.left) hints }
    ensures ended { Ended (problem (lists_of system.entry)) (marked active.now) result }
    ensures decides { (result.free ≡ 0) ↔ SomeOrder (lists_of system.entry) (marked active.now) }
    ensures helps { Helps (bare system.entry.tasks.now) (marked result.left) hints.entry }
    ensures assigns { hints.entry ≡ None → Assigns (problem (lists_of system.entry)) (marked active.now) from result }
{
    let tasks = system.without_rules();
    let mut search = from;
    let mut resources = Resources::at(tasks.list, &search.left);
    let mut blocking = resources.blocking();
    // No `for`: the count of free levels is the search's own, and falls where a task takes a level.
    while 0 < search.free {
        let ready = ready(system.rules, active, &search.left);
        let level = OpenLevel {
            tasks,
            ready: &ready,
            left: &search.left,
            blocking,
        };
        let Some(choice) = level.taker(hints) else {
            return search;
        };
        search.place(choice);
        if 0 < resources.used {
            resources.take(tasks.list, choice.task);
            blocking = resources.blocking();
        }
    }
    search
}

// The search from the start, with these rules active: every level is filled exactly when some order keeps those rules and
// meets every deadline.
#[tactic(auto, using(crate::specs::Filling::searched_none))]
pub fn trial(system: System<'_>, active: &[bool; MAX_RULES]) -> Search
    ensures holds_levels { HoldsLevels (problem (lists_of system.entry))
        (assign (problem (lists_of system.entry)) (marked active.now)) result }
    ensures ended { Ended (problem (lists_of system.entry)) (marked active.now) result }
    ensures decides { (result.free ≡ 0) ↔ SomeOrder (lists_of system.entry) (marked active.now) }
{
    let start = Search::fresh(system.tasks.len());
    fill_levels(system, active, None, start)
}
