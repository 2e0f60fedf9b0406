// Joining two tasks of one period into one.

#![tactic(auto)]

ghost use Rattle.std.specs.Prelude.{◌≡◌, [], ◌∷◌, ◌++◌, ◌+◌, ◌*◌, ◌≤◌, ◌<◌, true, length};
ghost use Rattle.std.specs.List.{list_any, remove};
ghost use Rattle.sets.specs.Pad.{pad};
ghost use Rattle.taskset.specs.Refusals.{max_tasks, max_rules, max_period};
ghost use Rattle.taskset.specs.Model.{blank_task, blank_rule};
ghost use Rattle.taskset.specs.Adding.{holding, lists, is_made, on_made, Made};
ghost use Rattle.joining.specs.Joining.{joint, new_place, puts, is_between, renamed, joined_rules, joined, join_refusal, joining};
ghost use Rattle.joining.specs.Joins.{Joins};

use taskset::{
    Changed, MAX_RULES, MAX_TASKS, Refusal, Rule, Task, TaskIndex, TaskSet, check_places,
};

// The row of the join, of a row and one that has the same period.
#[tactic(auto, unfolding(crate::specs::Joining::joint))]
fn joint(one: &Task, other: &Task) -> Task
    requires { one.now.execution + other.now.execution ≤ 2 * max_period }
    ensures { result ≡ joint one.now other.now }
{
    Task {
        period: one.period,
        execution: one.execution + other.execution,
        deadline: one.deadline.min(other.deadline),
        jitter: one.jitter.max(other.jitter),
        sections: std::array::from_fn(|k| one.section(k).max(other.section(k))),
    }
}

// Where a task stands afterwards.
#[tactic(auto, unfolding(crate::specs::Joining::new_place))]
fn new_place(low: TaskIndex, high: TaskIndex, place: TaskIndex) -> TaskIndex
    ensures { result.0 ≡ new_place low.0 high.0 place.0 }
{
    if place == high {
        return low;
    }
    if high.0 < place.0 {
        return TaskIndex(place.0 - 1);
    }
    place
}

// A rule that puts the one task above the other.
#[tactic(auto, unfolding(crate::specs::Joining::puts))]
fn puts(higher: TaskIndex, lower: TaskIndex, rule: &Rule) -> bool
    ensures { result ≡ puts higher.0 lower.0 rule.now }
{
    rule.higher == higher && rule.lower == lower
}

// A rule that stands between the two.
fn is_between(low: TaskIndex, high: TaskIndex, rule: &Rule) -> bool
    ensures { result ≡ is_between low.0 high.0 rule.now }
{
    puts(low, high, rule) || puts(high, low, rule)
}

// A rule with its tasks' new places.
fn renamed(low: TaskIndex, high: TaskIndex, rule: &Rule) -> Rule
    ensures { result ≡ renamed low.0 high.0 rule.now }
{
    Rule {
        higher: new_place(low, high, rule.higher),
        lower: new_place(low, high, rule.lower),
        weight: rule.weight,
    }
}

// The rules that don't stand between the two, renamed, and how many they are.
fn joined_rules(low: TaskIndex, high: TaskIndex, rules: &[Rule]) -> ([Rule; MAX_RULES], usize)
    requires { length rules.now ≤ max_rules }
    ensures rules { result.0 ≡ pad max_rules blank_rule (joined_rules low.0 high.0 rules.now) }
    ensures count { result.1 ≡ length (joined_rules low.0 high.0 rules.now) }
{
    let mut joined = [Rule::default(); MAX_RULES];
    let mut count = 0;
    for rule in rules {
        if !is_between(low, high, rule) {
            joined[count] = renamed(low, high, rule);
            count += 1;
        }
    }
    (joined, count)
}

// A row taken out: later ones move a place up, and a blank one stands at the end.
fn without_row(mut tasks: [Task; MAX_TASKS], place: TaskIndex) -> [Task; MAX_TASKS]
    requires { place.0 < max_tasks }
    ensures { result ≡ remove tasks place.0 ++ blank_task ∷ [] }
{
    tasks[place.0] = Task::default();
    tasks[place.0..].rotate_left(1);
    tasks
}

// Two tasks become one, at the smaller place.
fn merge(mut set: TaskSet, low: TaskIndex, high: TaskIndex) -> TaskSet
    requires made { is_made set ≡ true }
    requires places { (low.0 < high.0) × (high.0 < length (lists set).tasks) }
    ensures { result ≡ holding (joined low.0 high.0 (lists set)) }
{
    let one = set.tasks[low.0];
    let other = set.tasks[high.0];
    set.tasks[low.0] = joint(&one, &other);
    set.tasks = without_row(set.tasks, high);
    set.ntasks -= 1;
    let (rules, count) = joined_rules(low, high, set.rule_list());
    set.rules = rules;
    set.nrules = count;
    set
}

// Some rule puts the one task above the other.
fn is_ruled(rules: &[Rule], higher: TaskIndex, lower: TaskIndex) -> bool
    ensures { result ≡ list_any (puts higher.0 lower.0) rules.now }
{
    rules.iter().any(|rule| puts(higher, lower, rule))
}

// Refusals 14, 6, 11, 17, 18 and 2.
#[tactic(auto, using(crate::proofs::RefusingLaws::join_refusing))]
fn check(set: &TaskSet, first: TaskIndex, second: TaskIndex) -> Result<(), Refusal>
    ensures { result ≡ on_made set.now (join_refusal first.0 second.0) }
{
    let Some(system) = set.checked() else {
        return Err(Refusal::NotMade);
    };
    check_places(system.tasks.len(), first, second)?;
    let one = &system.tasks[first.0];
    let other = &system.tasks[second.0];
    if one.period != other.period {
        return Err(Refusal::DifferentPeriods);
    }
    if is_ruled(system.rules, first, second) && is_ruled(system.rules, second, first) {
        return Err(Refusal::BothWays);
    }
    if one.period < one.execution + other.execution {
        return Err(Refusal::Execution);
    }
    Ok(())
}

// Refusals 14, 6, 11, 17, 18 and 2, each with the set as it was; else the two tasks as one.
pub fn join(set: TaskSet, first: TaskIndex, second: TaskIndex) -> Changed
    ensures value { result ≡ joining set first.0 second.0 }
    ensures says { Made set → Joins set first.0 second.0 result }
{
    let answer = check(&set, first, second);
    if answer.is_err() {
        return Changed { answer, set };
    }
    let low = TaskIndex(first.0.min(second.0));
    let high = TaskIndex(first.0.max(second.0));
    Changed {
        answer,
        set: merge(set, low, high),
    }
}
