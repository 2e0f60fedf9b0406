// Rules put back, one after another.

ghost use Rattle.std.specs.Prelude.{◌≡◌, ◌≤◌, ◌<◌, length};
ghost use Rattle.taskset.specs.Views.{lists_of};
ghost use Rattle.assignment.specs.Audsley.{problem};
ghost use Rattle.relaxation.specs.Turns.{turns_of};
ghost use Rattle.relaxation.specs.Restoring.{max_budget, put_back, restored};

use crate::turns::Turns;
use feasibility::is_feasible;
use taskset::{MAX_RULES, System};

// The rules that were put back, and how many sets of rules were solved.
#[derive(Clone, Copy)]
pub struct Restoring {
    pub kept: [bool; MAX_RULES],
    pub count: u64,
}

impl Restoring {
    // Rule k is put back where that leaves an order, if the budget lasts.
    fn put_back(&mut self, system: System<'_>, budget: u64, k: usize)
        requires k_in_bounds { k < length system.rules.now }
        requires budget { budget ≤ max_budget }
        ensures { self.new ≡ put_back (problem (lists_of system.entry)) budget self.old k }
    {
        if self.count < budget {
            let mut more = self.kept;
            more[k] = true;
            self.count += 1;
            if is_feasible(system, &more) {
                self.kept = more;
            }
        }
    }
}

// The rules that can be put back while the budget lasts, the heaviest one first. The set of none has been solved.
#[tactic(auto, unfolding(crate::specs::Restoring::restored))]
pub fn restore(system: System<'_>, turns: &Turns, budget: u64) -> Restoring
    requires turns { turns.now ≡ turns_of system.rules.now (length system.rules.now) }
    requires budget { budget ≤ max_budget }
    ensures { result ≡ restored (problem (lists_of system.entry)) budget (length system.entry.rules.now) }
{
    let mut restoring = Restoring {
        kept: [false; MAX_RULES],
        count: 1,
    };
    for n in 0..system.rules.len() {
        restoring.put_back(system, budget, turns.places[n]);
    }
    restoring
}
