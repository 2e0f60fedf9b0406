// The cheapest rules to give up, so that the others can be had together.

#![tactic(auto)]

mod cores;
mod explore;
mod frontier;
mod restore;
mod table;
mod turns;

ghost use Rattle.std.specs.Prelude.{◌≡◌, ◌≤◌, length, T};
ghost use Rattle.sets.specs.Marks.{marked};
ghost use Rattle.taskset.specs.Adding.{lists, Made};
ghost use Rattle.taskset.specs.Views.{lists_of};
ghost use Rattle.assignment.specs.Orders.{no_rule};
ghost use Rattle.assignment.specs.Audsley.{feasible, problem};
ghost use Rattle.relaxation.specs.Restoring.{max_budget};
ghost use Rattle.relaxation.specs.Relaxing.{dropped_of, explored_relaxation, relaxed_within, relaxing};
ghost use Rattle.relaxation.specs.Relaxes.{Relaxes};

use cores::DisjointCores;
use explore::Exploring;
use feasibility::is_feasible;
use restore::restore;
use subsets::{SHORT, SUBSETS};
use table::tabled_relaxation;
use taskset::{MAX_RULES, Refusal, System, TaskSet};
use turns::Turns;

pub const MAX_BUDGET: u64 = 10_000;

// What can be given up: the dropped rules and their weight; a floor, which no set weighs less than without which the others can be had
// together; and cores that share no rule: by each rule the number of the core that it is in, counted from 1, 0 where it is in none, and
// how many cores there are.
#[derive(Clone, Copy)]
pub struct Relaxation {
    pub dropped: [bool; MAX_RULES],
    pub weight: u64,
    pub floor: u64,
    pub cores: [usize; MAX_RULES],
    pub ncores: usize,
}

// A relaxation, or none where no order exists even without rules; and how many sets of rules were solved.
#[derive(Clone, Copy)]
pub struct Relaxed {
    pub relaxation: Option<Relaxation>,
    pub count: u64,
}

// The rules that are not kept.
fn dropped(rules: usize, kept: &[bool; MAX_RULES]) -> [bool; MAX_RULES]
    requires { rules ≤ 128 }
    ensures { result ≡ dropped_of rules (marked kept.now) }
{
    let mut dropped = [false; MAX_RULES];
    for k in 0..rules {
        dropped[k] = !kept[k];
    }
    dropped
}

// What an exploration within the budget gives.
fn explored_relaxation(system: System<'_>, budget: u64) -> Relaxed
    requires budget { (1 ≤ budget) × (budget ≤ max_budget) }
    requires hopeful { T (feasible (problem (lists_of system)) no_rule) }
    ensures { result ≡ explored_relaxation (problem (lists_of system.entry)) budget }
{
    let m = system.rules.len();
    let turns = Turns::of(system.rules);
    let mut found = Exploring::start(system, restore(system, &turns, budget));
    found.explore(system, &turns, budget);
    let DisjointCores {
        numbers,
        ncores,
        least,
    } = found.cores.listed_in(system.rules, &sets::first(m));
    let dropped = dropped(m, &found.kept);
    let relaxation = Relaxation {
        dropped,
        weight: found.cost,
        floor: found.floor.max(least),
        cores: numbers,
        ncores,
    };
    Relaxed {
        relaxation: Some(relaxation),
        count: found.count,
    }
}

// Without rules first. A short list is solved whole, where the budget is enough for that.
fn relaxed_within(system: System<'_>, budget: u64) -> Relaxed
    requires { (1 ≤ budget) × (budget ≤ max_budget) }
    ensures { result ≡ relaxed_within (problem (lists_of system.entry)) budget }
{
    if !is_feasible(system, &[false; MAX_RULES]) {
        return Relaxed {
            relaxation: None,
            count: 1,
        };
    }
    if (system.rules.len() <= SHORT) & (SUBSETS as u64 <= budget) {
        return tabled_relaxation(system);
    }
    explored_relaxation(system, budget)
}

// Refusals 14, 13 and 16, then the rules to give up. The set is lent, so it can't change.
pub fn relax(set: &TaskSet, budget: u64) -> Result<Relaxed, Refusal>
    ensures value { result ≡ relaxing set.now budget }
    ensures says { Made set.now → Relaxes (lists set.now) budget result }
{
    let Some(system) = set.checked() else {
        return Err(Refusal::NotMade);
    };
    if system.tasks.is_empty() {
        return Err(Refusal::NoTasks);
    }
    if !(1..=MAX_BUDGET).contains(&budget) {
        return Err(Refusal::Budget);
    }
    Ok(relaxed_within(system, budget))
}
