// Cores: those found, and those listed, which share no rule.

ghost use Rattle.std.specs.Prelude.{◌≡◌, ◌≤◌, ◌<◌, ◌+◌, ◌*◌, length};
ghost use Rattle.sets.specs.Bounded.{all, greatest};
ghost use Rattle.sets.specs.Marks.{marked};
ghost use Rattle.taskset.specs.Refusals.{max_rules, max_weight};
ghost use Rattle.relaxation.specs.Weights.{least_weight};
ghost use Rattle.relaxation.specs.Disjoint.{none_listed, with_number, fresh_at, listed_with, included, listed_in, max_remembered, remembered, core_at};

use taskset::{MAX_RULES, MAX_WEIGHT, Rule};

// So many cores are remembered.
pub const MAX_REMEMBERED: usize = 256;

// By each rule the number of the listed core that it is in, counted from 1, and 0 where it is in none; how many are listed; and the sum
// of the least weights in each.
#[derive(Clone, Copy)]
pub struct DisjointCores {
    pub numbers: [usize; MAX_RULES],
    pub ncores: usize,
    pub least: u64,
}

// The cores that were found, of which the first are remembered.
#[derive(Clone, Copy)]
pub struct Cores {
    pub sets: [[bool; MAX_RULES]; MAX_REMEMBERED],
    pub n: usize,
}

// The least weight of a rule in the set.
fn least_weight(rules: &[Rule], these: &[bool; MAX_RULES]) -> u64
    requires { length rules.now ≤ max_rules }
    ensures value { result ≡ least_weight rules.now (length rules.now) (marked these.now) }
    ensures small { result ≤ max_weight }
{
    let mut least = MAX_WEIGHT;
    for (k, rule) in rules.iter().enumerate() {
        if these[k] & (rule.weight < least) {
            least = rule.weight;
        }
    }
    least
}

// Every rule of the core is kept.
fn included(rules: &[Rule], core: &[bool; MAX_RULES], kept: &[bool; MAX_RULES]) -> bool
    requires { length rules.now ≤ max_rules }
    ensures { result ≡ included rules.now (marked core.now) (marked kept.now) }
{
    for k in 0..rules.len() {
        if core[k] & !kept[k] {
            return false;
        }
    }
    true
}

// The rules of a core get its number.
fn with_number(
    numbers: [usize; MAX_RULES],
    core: &[bool; MAX_RULES],
    number: usize,
) -> [usize; MAX_RULES]
    ensures { result ≡ with_number numbers (marked core.now) number }
{
    let mut after = numbers;
    for k in 0..MAX_RULES {
        if core[k] {
            after[k] = number;
        }
    }
    after
}

impl DisjointCores {
    // No core is listed.
    pub fn none() -> DisjointCores
        ensures { result ≡ none_listed }
    {
        DisjointCores {
            numbers: [0; MAX_RULES],
            ncores: 0,
            least: 0,
        }
    }

    // No rule of the core is in one that is listed.
    fn is_apart(&self, rules: &[Rule], core: &[bool; MAX_RULES]) -> bool
        requires { length rules.now ≤ max_rules }
        ensures { result ≡ all (length rules.now) (fresh_at self.now (marked core.now)) }
    {
        for k in 0..rules.len() {
            if core[k] & (self.numbers[k] != 0) {
                return false;
            }
        }
        true
    }

    // A core is listed, where it shares no rule with those that are.
    pub fn add(&mut self, rules: &[Rule], core: &[bool; MAX_RULES])
        requires rules { length rules.now ≤ max_rules }
        requires few { self.old.ncores ≤ 4_096 }
        requires small { self.old.least ≤ self.old.ncores * max_weight }
        ensures { self.new ≡ listed_with rules.now self.old (marked core.now) }
    {
        if self.is_apart(rules, core) {
            self.ncores += 1;
            self.least += least_weight(rules, core);
            self.numbers = with_number(self.numbers, core, self.ncores);
        }
    }
}

impl Cores {
    // A core is remembered, if there is room.
    pub fn add(&mut self, core: [bool; MAX_RULES])
        requires { self.old.n ≤ max_remembered }
        ensures value { self.new ≡ remembered self.old core }
        ensures few { self.new.n ≤ max_remembered }
    {
        if self.n < MAX_REMEMBERED {
            self.sets[self.n] = core;
            self.n += 1;
        }
    }

    // The last one of those that are kept whole.
    pub fn within(&self, rules: &[Rule], kept: &[bool; MAX_RULES]) -> Option<usize>
        requires rules { length rules.now ≤ max_rules }
        requires few { self.now.n ≤ max_remembered }
        ensures { result ≡ greatest self.now.n (λ i. included rules.now (core_at self.now i) (marked kept.now)) }
    {
        let mut i = self.n;
        while 0 < i {
            i -= 1;
            if included(rules, &self.sets[i], kept) {
                return Some(i);
            }
        }
        None
    }

    // Of those that are kept whole, one after another, those that share no rule.
    pub fn listed_in(&self, rules: &[Rule], kept: &[bool; MAX_RULES]) -> DisjointCores
        requires rules { length rules.now ≤ max_rules }
        requires few { self.now.n ≤ max_remembered }
        ensures value { result ≡ listed_in rules.now self.now.sets (marked kept.now) self.now.n }
        ensures small { result.least ≤ max_remembered * max_weight }
    {
        let mut listed = DisjointCores::none();
        for i in 0..self.n {
            let core = &self.sets[i];
            if included(rules, core, kept) {
                listed.add(rules, core);
            }
        }
        listed
    }
}
