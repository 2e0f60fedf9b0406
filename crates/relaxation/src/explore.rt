// Sets of rules looked at, that with the least bound first, until none can be cheaper than the one in hand.

ghost use Rattle.std.specs.Prelude.{◌≡◌, ◌≤◌, ◌<◌, ◌+◌, length, true, T};
ghost use Rattle.sets.specs.Marks.{first, marked};
ghost use Rattle.taskset.specs.Refusals.{max_rules};
ghost use Rattle.taskset.specs.Views.{lists_of};
ghost use Rattle.assignment.specs.Orders.{no_rule};
ghost use Rattle.assignment.specs.Audsley.{feasible, problem};
ghost use Rattle.assignment.specs.Search.{Ended};
ghost use Rattle.relaxation.specs.Turns.{turns_of};
ghost use Rattle.relaxation.specs.Weights.{cost_of, cost_most};
ghost use Rattle.relaxation.specs.Restoring.{max_budget, restored};
ghost use Rattle.relaxation.specs.Exploring.{core_in, branching, learning, solved, looked, looking, at_start, started, explored, Bounds};

use crate::cores::{Cores, MAX_REMEMBERED};
use crate::frontier::{Frontier, MAX_OPEN, Open};
use crate::restore::Restoring;
use crate::turns::Turns;
use assignment::{Search, trial};
use taskset::{MAX_RULES, System};
use verdict::Cut;

// So often a set is looked at, at most.
const LOOKS: usize = 10_000;

// The sets that are still to be looked at and the cores found; the rules that the cheapest set in hand keeps, and its cost; what no set
// costs less than; how many sets were solved; and whether there is more to look at.
#[derive(Clone, Copy)]
pub struct Exploring {
    pub frontier: Frontier,
    pub cores: Cores,
    pub kept: [bool; MAX_RULES],
    pub cost: u64,
    pub floor: u64,
    pub count: u64,
    pub going: bool,
}

// What it costs to keep these rules alone.
pub fn cost_of(system: System<'_>, kept: &[bool; MAX_RULES]) -> u64
    ensures value { result ≡ cost_of system.entry.rules.now (marked kept.now) }
    ensures most { result ≤ cost_most }
{
    let mut cost = 0;
    for (k, rule) in system.rules.iter().enumerate() {
        if !kept[k] {
            cost += rule.weight;
        }
    }
    cost
}

// The core in a set of rules that has no order, from where the search with them got stuck.
fn core_in(
    system: System<'_>,
    turns: &Turns,
    kept: &[bool; MAX_RULES],
    stuck: Search,
) -> [bool; MAX_RULES]
    requires turns { turns.now ≡ turns_of system.rules.now (length system.rules.now) }
    requires ended { Ended (problem (lists_of system)) (marked kept.now) stuck }
    requires le_free { 1 ≤ stuck.free }
    ensures { result ≡ core_in (problem (lists_of system.entry)) kept.now }
{
    let mut cut = Cut::start(system, *kept, stuck);
    let m = system.rules.len();
    for n in 0..m {
        let k = turns.places[m - 1 - n];
        if cut.active[k] {
            cut.try_rule(system, k);
        }
    }
    cut.active
}

impl Exploring {
    // The rules that could be put back are in hand, and nothing is looked at yet.
    pub fn start(system: System<'_>, restored: Restoring) -> Exploring
        requires { restored.count ≤ max_budget }
        ensures value { result ≡ at_start (problem (lists_of system.entry)) restored }
        ensures bounds { Bounds result }
    {
        Exploring {
            frontier: Frontier {
                sets: [Open::every(system); MAX_OPEN],
                n: 0,
                full: false,
            },
            cores: Cores {
                sets: [[false; MAX_RULES]; MAX_REMEMBERED],
                n: 0,
            },
            kept: restored.kept,
            cost: cost_of(system, &restored.kept),
            floor: 0,
            count: restored.count,
            going: false,
        }
    }

    // In place of a set that keeps a core whole, it without each of the core's rules.
    fn branch(&mut self, system: System<'_>, set: &Open, core: &[bool; MAX_RULES])
        requires set_cost { set.now.cost ≤ cost_most }
        requires bounds { Bounds self.old }
        ensures value { self.new ≡ branching (problem (lists_of system.entry)) self.old set.now core.now }
        ensures bounds { Bounds self.new }
    {
        let limit = self.cost;
        self.frontier.branch(system, &self.cores, set, core, limit);
        self.going = !self.frontier.full;
    }

    // A core is found in a set that has no order: each rule is tried.
    fn learn(&mut self, system: System<'_>, turns: &Turns, set: &Open, stuck: Search)
        requires turns { turns.now ≡ turns_of system.rules.now (length system.rules.now) }
        requires ended { Ended (problem (lists_of system)) (marked set.now.kept) stuck }
        requires le_free { 1 ≤ stuck.free }
        requires set_cost { set.now.cost ≤ cost_most }
        requires count { self.old.count + length system.rules.now ≤ max_budget }
        requires bounds { Bounds self.old }
        ensures value { self.new ≡ learning (problem (lists_of system.entry)) self.old set.now }
        ensures bounds { Bounds self.new }
    {
        self.count += system.rules.len() as u64;
        let core = core_in(system, turns, &set.kept, stuck);
        self.cores.add(core);
        self.branch(system, set, &core);
    }

    // A set that keeps no known core whole is solved, while the budget lasts.
    fn solve(&mut self, system: System<'_>, turns: &Turns, budget: u64, set: &Open)
        requires turns { turns.now ≡ turns_of system.rules.now (length system.rules.now) }
        requires budget { budget ≤ max_budget }
        requires set_cost { set.now.cost ≤ cost_most }
        requires bounds { Bounds self.old }
        ensures value { self.new ≡ solved (problem (lists_of system.entry)) budget self.old set.now }
        ensures bounds { Bounds self.new }
    {
        if budget <= self.count {
            self.going = false;
            return;
        }
        let tried = trial(system, &set.kept);
        if tried.free == 0 {
            self.kept = set.kept;
            self.cost = set.cost;
            self.count += 1;
            self.going = false;
            return;
        }
        self.count += 1;
        if budget < self.count + system.rules.len() as u64 {
            self.going = false;
            return;
        }
        self.learn(system, turns, set, tried);
    }

    // A set whose bound is the least is looked at.
    fn look(&mut self, system: System<'_>, turns: &Turns, budget: u64)
        requires turns { turns.now ≡ turns_of system.rules.now (length system.rules.now) }
        requires budget { budget ≤ max_budget }
        requires bounds { Bounds self.old }
        requires going { self.old.going ≡ true }
        ensures value { self.new ≡ looked (problem (lists_of system.entry)) budget self.old }
        ensures bounds { Bounds self.new }
    {
        if self.frontier.n == 0 {
            self.floor = self.cost;
            self.going = false;
            return;
        }
        let set = self.frontier.take();
        self.floor = set.least;
        let Some(i) = self.cores.within(system.rules, &set.kept) else {
            self.solve(system, turns, budget, &set);
            return;
        };
        let core = self.cores.sets[i];
        self.branch(system, &set, &core);
    }

    // From the start on: a core is cut out of all rules where a rule was not put back and the budget lasts, and then sets are looked at.
    pub fn explore(&mut self, system: System<'_>, turns: &Turns, budget: u64)
        requires turns { turns.now ≡ turns_of system.rules.now (length system.rules.now) }
        requires budget { (1 ≤ budget) × (budget ≤ max_budget) }
        requires hopeful { T (feasible (problem (lists_of system)) no_rule) }
        requires start { self.old ≡ at_start (problem (lists_of system)) (restored (problem (lists_of system)) budget (length system.rules.now)) }
        requires bounds { Bounds self.old }
        ensures value { self.new ≡ explored (problem (lists_of system.entry)) budget }
        ensures bounds { Bounds self.new }
    {
        if (0 < self.cost) & (self.count + system.rules.len() as u64 <= budget) {
            let set = Open::every(system);
            let stuck = trial(system, &set.kept);
            self.learn(system, turns, &set, stuck);
        }
        for _ in 0..LOOKS {
            if self.going {
                self.look(system, turns, budget);
            }
        }
    }
}
