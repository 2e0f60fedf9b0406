// Task sets: document 01's sheet, with adding a task and a rule, and refusal 14.

#![tactic(auto)]

mod refusals;
mod system;

ghost use Rattle.std.specs.Prelude.{◌≡◌, ◌≤◌, ◌<◌, true, ◌↔◌, length, is_some, IfSome};
ghost use Rattle.sets.specs.Pad.{pad};
ghost use Rattle.taskset.specs.declared.Call.TheVariants.{AddTask, AddRule};
ghost use Rattle.taskset.specs.Refusals.{max_tasks, max_rules, resources, section_on, longest_section, uses_none};
ghost use Rattle.taskset.specs.Refusals.{first_of, row_refusals, place_refusals, index_refusals, weight_refusals, refusal_by};
ghost use Rattle.taskset.specs.Model.{refusal_of, Sound};
ghost use Rattle.taskset.specs.Numbers.{task_of, rule_of, task_numbers, rule_numbers};
ghost use Rattle.taskset.specs.Views.{lists_of};
ghost use Rattle.taskset.specs.Adding.{holding, fresh_set, is_blank_task, is_blank_rule, is_made, lists, add, Made};

pub use refusals::Refusal;
pub use system::{System, Tasks};

pub const MAX_TASKS: usize = 64;

pub const MAX_RULES: usize = 128;

pub const MAX_PERIOD: u64 = 1_000_000;

pub const MAX_WEIGHT: u64 = 1_000;

pub const RESOURCES: usize = 8;

// How many numbers the text line of a task has, and that of a rule.
pub const TASK_NUMBERS: usize = 4 + RESOURCES;

pub const RULE_NUMBERS: usize = 3;

// A task's place in its set, counted from 0 in the order of adding.
#[derive(Clone, Copy, Debug, Default, PartialEq, Eq)]
pub struct TaskIndex(pub usize);

// A priority level: 0 is the highest.
#[derive(Clone, Copy, Debug, PartialEq, Eq)]
pub struct PriorityLevel(pub usize);

// A row, in whole microseconds. A section is the length of the task's critical section on a resource, 0 where it does not use it.
#[derive(Clone, Copy, Default, PartialEq, Eq)]
pub struct Task {
    pub period: u64,
    pub execution: u64,
    pub deadline: u64,
    pub jitter: u64,
    pub sections: [u64; RESOURCES],
}

// The task `higher` has a higher priority than the task `lower`. The weight is what it costs to give the rule up.
#[derive(Clone, Copy, Default, PartialEq, Eq)]
pub struct Rule {
    pub higher: TaskIndex,
    pub lower: TaskIndex,
    pub weight: u64,
}

// Document 01's sheet: the first ntasks tasks and the first nrules rules are used, the others are all zeros.
#[derive(Clone, Copy)]
pub struct TaskSet {
    pub tasks: [Task; MAX_TASKS],
    pub ntasks: usize,
    pub rules: [Rule; MAX_RULES],
    pub nrules: usize,
}

// The arguments of an adding call, its task set aside.
#[derive(Clone, Copy)]
pub enum Call {
    AddTask(Task),
    AddRule(Rule),
}

// What a call that changes a set answers: whether it is taken, or why not, and the set after the call.
#[derive(Clone, Copy)]
pub struct Changed {
    pub answer: Result<(), Refusal>,
    pub set: TaskSet,
}

impl From<[u64; TASK_NUMBERS]> for Task {
    ghost from_gives = { λ numbers task. task ≡ task_of numbers };

    // In the order of a line: C, T, D, J and the sections.
    fn from(numbers: [u64; TASK_NUMBERS]) -> Task {
        let [execution, period, deadline, jitter, ..] = numbers;
        Task {
            period,
            execution,
            deadline,
            jitter,
            sections: std::array::from_fn(|k| numbers[4 + k]),
        }
    }
}

impl From<[u64; RULE_NUMBERS]> for Rule {
    ghost from_gives = { λ numbers rule. rule ≡ rule_of numbers };

    // In the order of a line: u, l and the weight.
    fn from(numbers: [u64; RULE_NUMBERS]) -> Rule {
        let [higher, lower, weight] = numbers;
        Rule {
            higher: TaskIndex(higher as usize),
            lower: TaskIndex(lower as usize),
            weight,
        }
    }
}

impl From<Task> for [u64; TASK_NUMBERS] {
    ghost from_gives = { λ task numbers. numbers ≡ task_numbers task };

    // In the order of a line.
    fn from(task: Task) -> [u64; TASK_NUMBERS] {
        let mut numbers = [0; TASK_NUMBERS];
        numbers[..4].copy_from_slice(&[task.execution, task.period, task.deadline, task.jitter]);
        numbers[4..].copy_from_slice(&task.sections);
        numbers
    }
}

impl From<Rule> for [u64; RULE_NUMBERS] {
    ghost from_gives = { λ rule numbers. numbers ≡ rule_numbers rule };

    // In the order of a line.
    fn from(rule: Rule) -> [u64; RULE_NUMBERS] {
        [rule.higher.0 as u64, rule.lower.0 as u64, rule.weight]
    }
}

impl Task {
    // The length of its section on a resource.
    #[tactic(auto, unfolding(crate::specs::Refusals::section_on))]
    pub fn section(&self, resource: usize) -> u64
        requires { resource < resources }
        ensures { result ≡ section_on self.now resource }
    {
        self.sections[resource]
    }

    // The longest of its sections.
    #[tactic(auto, using(crate::specs::RefusalLaws::longest_section_of))]
    pub fn longest_section(&self) -> u64
        ensures { result ≡ longest_section self.now }
    {
        let sections = self.sections.iter();
        sections.fold(0, |longest, section| longest.max(*section))
    }

    // It uses no resource.
    #[tactic(auto, unfolding(crate::specs::Refusals::uses_none, crate::specs::Refusals::section_on, sets::specs::Bounded::all))]
    pub fn uses_none(&self) -> bool
        ensures { result ≡ uses_none self.now }
    {
        self.sections.iter().all(|section| *section == 0)
    }

    // All zeros. Not generic over tasks and rules: at a type parameter `==` says nothing of what a row is.
    fn is_blank(&self) -> bool
        ensures { result ≡ is_blank_task self.now }
    {
        *self == Task::default()
    }

    // Refusals 1 to 5.
    #[tactic(auto, unfolding(crate::specs::Refusals::row_refusals))]
    fn check(&self) -> Result<(), Refusal>
        ensures { result ≡ first_of (row_refusals self.now) }
    {
        let period = self.period;
        if !(1..=MAX_PERIOD).contains(&period) {
            return Err(Refusal::Period);
        }
        if !(1..=period).contains(&self.execution) {
            return Err(Refusal::Execution);
        }
        if !(1..=period).contains(&self.deadline) {
            return Err(Refusal::Deadline);
        }
        if period <= self.jitter {
            return Err(Refusal::Jitter);
        }
        if self.execution < self.longest_section() {
            return Err(Refusal::Section);
        }
        Ok(())
    }
}

impl Rule {
    // All zeros.
    fn is_blank(&self) -> bool
        ensures { result ≡ is_blank_rule self.now }
    {
        *self == Rule::default()
    }

    // Refusals 6 and 11, in a set of n tasks.
    fn check(&self, n: usize) -> Result<(), Refusal>
        ensures { result ≡ first_of (index_refusals n self.now) }
    {
        check_places(n, self.higher, self.lower)
    }

    // Refusal 15.
    #[tactic(auto, unfolding(crate::specs::Refusals::weight_refusals))]
    fn check_weight(&self) -> Result<(), Refusal>
        ensures { result ≡ first_of (weight_refusals self.now) }
    {
        if !(1..=MAX_WEIGHT).contains(&self.weight) {
            return Err(Refusal::Weight);
        }
        Ok(())
    }
}

// Two places in a set of n tasks: refusals 6 and 11.
#[tactic(auto, unfolding(crate::specs::Refusals::place_refusals))]
pub fn check_places(n: usize, one: TaskIndex, other: TaskIndex) -> Result<(), Refusal>
    ensures { result ≡ first_of (place_refusals n one.0 other.0) }
{
    if one == other {
        return Err(Refusal::SameTask);
    }
    if n <= one.0 || n <= other.0 {
        return Err(Refusal::NoSuchTask);
    }
    Ok(())
}

// A call to a set of n tasks and m rules: refusals 1 to 5, then 10; or 6, 11, 12, then 15.
#[tactic(auto, using(crate::specs::RefusalLaws::task_by, crate::specs::RefusalLaws::rule_by))]
pub fn check(n: usize, m: usize, call: &Call) -> Result<(), Refusal>
    ensures { result ≡ refusal_by n m call.now }
{
    match call {
        Call::AddTask(task) => {
            task.check()?;
            if MAX_TASKS <= n {
                return Err(Refusal::FullTasks);
            }
        }
        Call::AddRule(rule) => {
            rule.check(n)?;
            if MAX_RULES <= m {
                return Err(Refusal::FullRules);
            }
            rule.check_weight()?;
        }
    }
    Ok(())
}

// A list as the front of an array, the rest of which is blank.
#[tactic(auto, using(crate::specs::Holding::pad_copied))]
fn padded<L: Copy, const N: usize>(list: &[L], blank: L) -> [L; N]
    requires { length list.now ≤ N }
    ensures { result ≡ pad N blank list.now }
{
    let mut array = [blank; N];
    array[..list.len()].copy_from_slice(list);
    array
}

impl TaskSet {
    // An empty task set.
    pub fn fresh() -> TaskSet
        ensures { result ≡ fresh_set }
    {
        TaskSet {
            tasks: [Task::default(); MAX_TASKS],
            ntasks: 0,
            rules: [Rule::default(); MAX_RULES],
            nrules: 0,
        }
    }

    // The set that holds these tasks and rules, sound or not.
    pub fn hold(tasks: &[Task], rules: &[Rule]) -> TaskSet
        requires few { length tasks.now ≤ max_tasks }
        requires few_rules { length rules.now ≤ max_rules }
        ensures { result ≡ holding (record { tasks = tasks.now; rules = rules.now }) }
    {
        TaskSet {
            tasks: padded(tasks, Task::default()),
            ntasks: tasks.len(),
            rules: padded(rules, Rule::default()),
            nrules: rules.len(),
        }
    }

    // Some list of adding calls makes this set; if not, every call refuses it with 14.
    pub fn is_made(&self) -> bool
        ensures value { result ≡ is_made self.now }
        ensures exact { (result ≡ true) ↔ Made self.now }
    {
        let n = self.ntasks;
        let m = self.nrules;
        n <= MAX_TASKS
            && m <= MAX_RULES
            && self.tasks[..n].iter().all(|task| task.check().is_ok())
            && self.tasks[n..].iter().all(Task::is_blank)
            && self.rules[..m].iter().all(|rule| rule.check(n).is_ok()
                && rule.check_weight().is_ok())
            && self.rules[m..].iter().all(Rule::is_blank)
    }

    // Its tasks.
    pub fn task_list(&self) -> &[Task]
        requires { self.now.ntasks ≤ max_tasks }
        ensures { result.now ≡ (lists self.now).tasks }
    {
        &self.tasks[..self.ntasks]
    }

    // Its rules.
    pub fn rule_list(&self) -> &[Rule]
        requires { self.now.nrules ≤ max_rules }
        ensures { result.now ≡ (lists self.now).rules }
    {
        &self.rules[..self.nrules]
    }

    // Its lists, of which adding has taken every entry.
    pub fn system(&self) -> System<'_>
        requires counts { (self.now.ntasks ≤ max_tasks) × (self.now.nrules ≤ max_rules) }
        requires sound { Sound (lists self.now) }
        ensures { lists_of result ≡ lists self.now }
    {
        System {
            tasks: self.task_list(),
            rules: self.rule_list(),
        }
    }

    // The lists of a set that calls make, and nothing of any other.
    pub fn checked(&self) -> Option<System<'_>>
        ensures made { is_some result ≡ is_made self.now }
        ensures lists { IfSome result (λ s. lists_of s ≡ lists self.now) }
    {
        if !self.is_made() {
            return None;
        }
        Some(self.system())
    }

    // An adding call on a set that calls make.
    #[tactic(auto, using(crate::specs::AddingLaws::hearing))]
    pub fn hear(&mut self, call: Call) -> Result<(), Refusal>
        requires { is_made self.old ≡ true }
        ensures answer { result ≡ refusal_of (lists self.old) call }
        ensures set { self.new ≡ (add self.old call).set }
    {
        check(self.ntasks, self.nrules, &call)?;
        match call {
            Call::AddTask(task) => {
                self.tasks[self.ntasks] = task;
                self.ntasks += 1;
            }
            Call::AddRule(rule) => {
                self.rules[self.nrules] = rule;
                self.nrules += 1;
            }
        }
        Ok(())
    }

    // An adding call: refusal 14, then those of the call.
    #[tactic(auto, using(crate::specs::AddingLaws::adding))]
    pub fn add(mut self, call: Call) -> Changed
        ensures { result ≡ add self call }
    {
        let answer = if self.is_made() {
            self.hear(call)
        } else {
            Err(Refusal::NotMade)
        };
        Changed { answer, set: self }
    }

    // Refusals 14, 1 to 5, 10.
    pub fn add_task(self, task: Task) -> Changed
        ensures { result ≡ add self (AddTask task) }
    {
        self.add(Call::AddTask(task))
    }

    // Refusals 14, 6, 11, 12, 15.
    pub fn add_rule(self, rule: Rule) -> Changed
        ensures { result ≡ add self (AddRule rule) }
    {
        self.add(Call::AddRule(rule))
    }
}
