// Which sets of rules of a short list are feasible: some order keeps their rules and meets every deadline.

#![tactic(auto)]

ghost use Rattle.std.specs.Prelude.{IfSome, is_some, ◌≡◌, ℕ, ◌≤◌, ◌<◌, length, get_or};
ghost use Rattle.sets.specs.Rank.{rank};
ghost use Rattle.sets.specs.Numbered.{numbered, number_of};
ghost use Rattle.sets.specs.Marks.{marked};
ghost use Rattle.taskset.specs.Refusals.{max_tasks};
ghost use Rattle.taskset.specs.Model.{Lists};
ghost use Rattle.taskset.specs.Views.{lists_of};
ghost use Rattle.assignment.specs.Orders.{IsOrder};
ghost use Rattle.assignment.specs.Audsley.{feasible, problem};
ghost use Rattle.subsets.specs.Subsets.{short, subsets, ruled_out, core_set, FeasibleSubsets};
ghost use Rattle.subsets.specs.Found.{max_orders, order_of, keeping, covered, added, IsFeasible, Grown, RightlyFound};

use assignment::{Search, trial};
use taskset::{MAX_RULES, MAX_TASKS, System};

// So many rules make a short list.
pub const SHORT: usize = 12;

// So many sets of its rules are there. A set is a number below that: rule k is in it where bit k is set.
pub const SUBSETS: usize = 1 << SHORT;

// At most so many orders are remembered.
const MAX_ORDERS: usize = 64;

// The rules of a set.
pub fn marks(set: usize) -> [bool; MAX_RULES]
    requires { set < subsets }
    ensures { marked result ≡ numbered set }
{
    let mut marks = [false; MAX_RULES];
    for k in 0..SHORT {
        marks[k] = set >> k & 1 == 1;
    }
    marks
}

// The level of each task, after a search that has filled every level.
fn levels(tasks: usize, search: &Search) -> [usize; MAX_TASKS]
    requires few { tasks ≤ max_tasks }
    requires is_order { IsOrder tasks (order_of tasks search.now) }
    ensures { (i : ℕ) → i < tasks → get_or result i 0 ≡ rank (order_of tasks search.now) i }
{
    let mut levels = [0; MAX_TASKS];
    for level in 0..tasks {
        levels[search.order[level].0] = level;
    }
    levels
}

// The set of rules that this order keeps.
fn rules_kept(system: System<'_>, search: &Search) -> usize
    requires few { length system.rules.now ≤ short }
    requires is_order { IsOrder (length system.tasks.now) (order_of (length system.tasks.now) search.now) }
    ensures { result ≡ number_of (length system.entry.rules.now)
        (keeping system.entry.rules.now (order_of (length system.entry.tasks.now) search.now)) }
{
    let levels = levels(system.tasks.len(), search);
    let mut set = 0;
    for (k, rule) in system.rules.iter().enumerate() {
        if levels[rule.higher.0] < levels[rule.lower.0] {
            set += 1 << k;
        }
    }
    set
}

// All that some order keeps which keeps the rules of this set and meets every deadline; none where there is no such order.
fn kept_with(system: System<'_>, set: usize) -> Option<usize>
    requires set_in_bounds { set < subsets }
    requires few { length system.rules.now ≤ short }
    ensures found { is_some result ≡ feasible (problem (lists_of system.entry)) (numbered set) }
    ensures kept { IfSome result (Grown (lists_of system.entry) set) }
{
    let search = trial(system, &marks(set));
    if 0 < search.free {
        return None;
    }
    Some(rules_kept(system, &search))
}

// The sets of rules that orders keep which were found to meet every deadline, and marks of the sets that were tried in vain: no order
// keeps their rules and meets every deadline.
#[derive(Clone, Copy)]
struct Found {
    kept: [usize; MAX_ORDERS],
    orders: usize,
    infeasible: [bool; SUBSETS],
}

impl Found {
    // No set is tried yet.
    fn none() -> Found
        ensures { (l : Lists) → RightlyFound l result }
    {
        Found {
            kept: [0; MAX_ORDERS],
            orders: 0,
            infeasible: [false; SUBSETS],
        }
    }

    // One of these orders keeps the rules of the set.
    fn covers(&self, set: usize) -> bool
        requires { self.now.orders ≤ max_orders }
        ensures { result ≡ covered self.now set }
    {
        self.kept[..self.orders]
            .iter()
            .any(|kept| set & kept == set)
    }

    // One order more, while there is room for it.
    fn add(&mut self, kept: usize)
        requires { self.old.orders ≤ max_orders }
        ensures { self.new ≡ added self.old kept }
    {
        if self.orders < MAX_ORDERS {
            self.kept[self.orders] = kept;
            self.orders += 1;
        }
    }

    // All that some order keeps which keeps the rules of this set and meets every deadline; none where there is no such order. A set
    // that was tried in vain is not tried again.
    fn try_once(&mut self, system: System<'_>, set: usize) -> Option<usize>
        requires set_in_bounds { set < subsets }
        requires few { length system.rules.now ≤ short }
        requires right { RightlyFound (lists_of system) self.old }
        ensures found { is_some result ≡ feasible (problem (lists_of system.entry)) (numbered set) }
        ensures kept { IfSome result (Grown (lists_of system.entry) set) }
        ensures right { RightlyFound (lists_of system.entry) self.new }
    {
        if self.infeasible[set] {
            return None;
        }
        let kept = kept_with(system, set);
        self.infeasible[set] = kept.is_none();
        kept
    }

    // Where some order keeps one rule more than a set has, what that order keeps; and so on, rule by rule. No order that was found before
    // keeps these rules if none keeps those of the set.
    fn grown(&mut self, system: System<'_>, set: usize) -> usize
        requires few { length system.rules.now ≤ short }
        requires feasible { IsFeasible (lists_of system) set }
        requires right { RightlyFound (lists_of system) self.old }
        ensures value { Grown (lists_of system.entry) set result }
        ensures right { RightlyFound (lists_of system.entry) self.new }
    {
        let mut kept = set;
        for k in 0..system.rules.len() {
            if kept >> k & 1 == 0 {
                kept = self.try_once(system, kept | (1 << k)).unwrap_or(kept);
            }
        }
        kept
    }

    // Looks for an order that keeps the rules of a set and meets every deadline: among those found, then by a trial. While there is room
    // for it, the order is grown and remembered.
    fn look_for(&mut self, system: System<'_>, set: usize) -> bool
        requires set_in_bounds { set < subsets }
        requires few { length system.rules.now ≤ short }
        requires right { RightlyFound (lists_of system) self.old }
        ensures value { result ≡ feasible (problem (lists_of system.entry)) (numbered set) }
        ensures right { RightlyFound (lists_of system.entry) self.new }
    {
        if self.covers(set) {
            return true;
        }
        let Some(kept) = self.try_once(system, set) else {
            return false;
        };
        if self.orders < MAX_ORDERS {
            let grown = self.grown(system, kept);
            self.add(grown);
        }
        true
    }
}

// One of the sets with one rule fewer is not feasible.
fn is_ruled_out(feasible: &[bool; SUBSETS], set: usize) -> bool
    requires { set < subsets }
    ensures { result ≡ ruled_out (marked feasible.now) set }
{
    for k in 0..SHORT {
        if set >> k & 1 == 1 && !feasible[set - (1 << k)] {
            return true;
        }
    }
    false
}

// A core: it is not feasible, and without any one of its rules it is.
pub fn is_core(feasible: &[bool; SUBSETS], set: usize) -> bool
    requires { set < subsets }
    ensures { result ≡ core_set (marked feasible.now) set }
{
    !feasible[set] && !is_ruled_out(feasible, set)
}

// For each set of rules, by its number, whether it is feasible. The set of all rules is tried first, since an order that keeps them
// keeps those of every set. No set is tried twice: as long as there is room for orders, one that was tried is marked, or an order that
// is remembered keeps its rules; without room each is looked at once.
pub fn feasible_subsets(system: System<'_>) -> [bool; SUBSETS]
    requires { length system.rules.now ≤ short }
    ensures { FeasibleSubsets (lists_of system.entry) result }
{
    let all = 1 << system.rules.len();
    let mut found = Found::none();
    found.look_for(system, all - 1);
    let mut feasible = [false; SUBSETS];
    for set in 0..all {
        feasible[set] = !is_ruled_out(&feasible, set) && found.look_for(system, set);
    }
    feasible
}
