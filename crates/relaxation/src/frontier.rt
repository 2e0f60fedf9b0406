// The sets of rules whose subsets are still to be looked at.

ghost use Rattle.std.specs.Prelude.{◌≡◌, ◌≤◌, ◌<◌, ◌+◌, length};
ghost use Rattle.sets.specs.Marks.{marked};
ghost use Rattle.taskset.specs.Refusals.{max_rules};
ghost use Rattle.taskset.specs.Views.{lists_of};
ghost use Rattle.assignment.specs.Audsley.{problem};
ghost use Rattle.relaxation.specs.Weights.{cost_most};
ghost use Rattle.relaxation.specs.Disjoint.{max_remembered};
ghost use Rattle.relaxation.specs.Exploring.{every_open};
ghost use Rattle.relaxation.specs.Frontier.{max_open, least_of, foremost, taken, added, child, branched, FewOpen};

use crate::cores::Cores;
use taskset::{MAX_RULES, System};

// So many sets are kept at once.
pub const MAX_OPEN: usize = 1_024;

// A set of rules that are kept, what it costs to keep these alone, and a bound: what any of its subsets that has an order costs at
// least.
#[derive(Clone, Copy)]
pub struct Open {
    pub kept: [bool; MAX_RULES],
    pub cost: u64,
    pub least: u64,
}

// The first n sets, and whether there was no room for one.
#[derive(Clone, Copy)]
pub struct Frontier {
    pub sets: [Open; MAX_OPEN],
    pub n: usize,
    pub full: bool,
}

impl Open {
    // Every rule is kept.
    pub fn every(system: System<'_>) -> Open
        ensures { result ≡ every_open (problem (lists_of system.entry)) }
    {
        Open {
            kept: sets::first(system.rules.len()),
            cost: 0,
            least: 0,
        }
    }
}

impl Frontier {
    // The last one of those whose bound is the least.
    fn foremost(&self) -> usize
        requires { self.now.n ≤ max_open }
        ensures value { result ≡ foremost self.now self.now.n }
        ensures in_bounds { result < max_open }
    {
        let mut found = 0;
        for i in 0..self.n {
            if self.sets[i].least <= self.sets[found].least {
                found = i;
            }
        }
        found
    }

    // One whose bound is the least is taken out.
    pub fn take(&mut self) -> Open
        requires some { 1 ≤ self.old.n }
        requires few { FewOpen self.old }
        ensures taken { result ≡ least_of self.old }
        ensures cost { result.cost ≤ cost_most }
        ensures rest { self.new ≡ taken self.old }
        ensures few { FewOpen self.new }
    {
        let i = self.foremost();
        let least = self.sets[i];
        self.n -= 1;
        self.sets[i] = self.sets[self.n];
        least
    }

    // One more, if there is room.
    fn add(&mut self, set: Open)
        requires cost { set.cost ≤ cost_most }
        requires few { FewOpen self.old }
        ensures value { self.new ≡ added self.old set }
        ensures few { FewOpen self.new }
    {
        if self.n < MAX_OPEN {
            self.sets[self.n] = set;
            self.n += 1;
        } else {
            self.full = true;
        }
    }

    // A set without one of its rules, where it may cost less than the limit.
    fn add_child(&mut self, system: System<'_>, cores: &Cores, set: &Open, k: usize, limit: u64)
        requires k_in_bounds { k < length system.rules.now }
        requires cores { cores.now.n ≤ max_remembered }
        requires cost { set.now.cost ≤ cost_most }
        requires limit { limit ≤ cost_most }
        requires few { FewOpen self.old }
        ensures value { self.new ≡ child system.entry.rules.now cores.now limit set.now self.old k }
        ensures few { FewOpen self.new }
    {
        let cost = set.cost + system.rules[k].weight;
        if limit <= cost {
            return;
        }
        let mut kept = set.kept;
        kept[k] = false;
        let least = set
            .least
            .max(cost + cores.listed_in(system.rules, &kept).least);
        if least < limit {
            self.add(Open { kept, cost, least });
        }
    }

    // In place of a set that keeps a core whole, it without each of the core's rules.
    pub fn branch(
        &mut self,
        system: System<'_>,
        cores: &Cores,
        set: &Open,
        core: &[bool; MAX_RULES],
        limit: u64,
    )
        requires cores { cores.now.n ≤ max_remembered }
        requires cost { set.now.cost ≤ cost_most }
        requires limit { limit ≤ cost_most }
        requires few { FewOpen self.old }
        ensures value { self.new ≡ branched system.entry.rules.now cores.now limit set.now (marked core.now) self.old (length system.entry.rules.now) }
        ensures few { FewOpen self.new }
    {
        for k in 0..system.rules.len() {
            if core[k] {
                self.add_child(system, cores, set, k, limit);
            }
        }
    }
}
