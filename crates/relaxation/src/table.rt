// A short list of rules: every set of them is solved.

ghost use Rattle.std.specs.Prelude.{◌≡◌, ◌≤◌, ◌<◌, ◌^◌, length, T};
ghost use Rattle.sets.specs.Marks.{marked};
ghost use Rattle.taskset.specs.Views.{lists_of};
ghost use Rattle.assignment.specs.Orders.{no_rule};
ghost use Rattle.assignment.specs.Audsley.{feasible, problem};
ghost use Rattle.subsets.specs.Subsets.{short, feasible_set, FeasibleSubsets};
ghost use Rattle.relaxation.specs.Weights.{cost_of, cost_most};
ghost use Rattle.relaxation.specs.Table.{cheapest, cores_listed};
ghost use Rattle.relaxation.specs.Relaxing.{tabled_relaxation};

use crate::cores::DisjointCores;
use crate::explore::cost_of;
use crate::{Relaxation, Relaxed, dropped};
use subsets::{SUBSETS, feasible_subsets, is_core, marks};
use taskset::System;

// Of the sets that have an order, the first one that it costs least to keep alone.
fn cheapest(system: System<'_>, feasible: &[bool; SUBSETS]) -> usize
    requires few { length system.rules.now ≤ short }
    requires table { FeasibleSubsets (lists_of system) feasible.now }
    ensures value { result ≡ cheapest (problem (lists_of system.entry)) (feasible_set (problem (lists_of system.entry))) (2 ^ length system.entry.rules.now) }
    ensures in_bounds { result < 2 ^ length system.entry.rules.now }
{
    let mut best = 0;
    let mut least = cost_of(system, &marks(0));
    for set in 0..1 << system.rules.len() {
        if feasible[set] {
            let cost = cost_of(system, &marks(set));
            if cost < least {
                best = set;
                least = cost;
            }
        }
    }
    best
}

// The cores, one after another by their numbers, that share no rule with those before.
fn cores_listed(system: System<'_>, feasible: &[bool; SUBSETS]) -> DisjointCores
    requires few { length system.rules.now ≤ short }
    requires table { FeasibleSubsets (lists_of system) feasible.now }
    ensures { result ≡ cores_listed (problem (lists_of system.entry)) (feasible_set (problem (lists_of system.entry))) (2 ^ length system.entry.rules.now) }
{
    let mut listed = DisjointCores::none();
    for set in 0..1 << system.rules.len() {
        if is_core(feasible, set) {
            listed.add(system.rules, &marks(set));
        }
    }
    listed
}

// The cheapest set of rules to give up, and cores that meet every core.
pub fn tabled_relaxation(system: System<'_>) -> Relaxed
    requires few { length system.rules.now ≤ short }
    requires hopeful { T (feasible (problem (lists_of system)) no_rule) }
    ensures { result ≡ tabled_relaxation (problem (lists_of system.entry)) }
{
    let m = system.rules.len();
    let feasible = feasible_subsets(system);
    let kept = marks(cheapest(system, &feasible));
    let DisjointCores {
        numbers,
        ncores,
        ..
    } = cores_listed(system, &feasible);
    let weight = cost_of(system, &kept);
    let dropped = dropped(m, &kept);
    let relaxation = Relaxation {
        dropped,
        weight,
        floor: weight,
        cores: numbers,
        ncores,
    };
    Relaxed {
        relaxation: Some(relaxation),
        count: 1 << m,
    }
}
