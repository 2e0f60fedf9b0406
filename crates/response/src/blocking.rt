// Blocking at a level, kept up from level to level.

ghost use Rattle.std.specs.Prelude.{◌≡◌, Bool, false, ℕ, ◌≤◌, ◌<◌, T, length};
ghost use Rattle.sets.specs.Bounded.{any, without};
ghost use Rattle.sets.specs.Marks.{marked};
ghost use Rattle.taskset.specs.Refusals.{max_tasks, resources};
ghost use Rattle.taskset.specs.Model.{task_at};
ghost use Rattle.response.specs.Blocking.{uses};
ghost use Rattle.response.specs.Resources.{BlocksEach, UnusedFrom, usage_of, Tracks, blocking_by};

use taskset::{MAX_TASKS, RESOURCES, Task, TaskIndex};

// Of a resource: how many of the tasks left use it, and the longest section on it of those that have a level.
#[derive(Clone, Copy, Default)]
pub struct Usage {
    pub users: u64,
    pub held: u64,
}

// What is kept at a level to know the blocking there. No task uses a resource from `used` on. An array and a count, since nothing
// is allocated.
#[derive(Clone, Copy)]
pub struct Resources {
    pub used: usize,
    pub usage: [Usage; RESOURCES],
}

// Some task uses this resource.
fn is_used(tasks: &[Task], resource: usize) -> bool
    requires { resource < resources }
    ensures { result ≡ any (length tasks.now) (λ j. uses (task_at tasks.now j) resource) }
{
    tasks.iter().any(|t| 0 < t.section(resource))
}

// Some task uses a resource.
fn is_shared(tasks: &[Task]) -> bool
    ensures { result ≡ false → UnusedFrom tasks.now 0 }
{
    tasks.iter().any(|t| !t.uses_none())
}

// A number of resources from which on no task uses one: up to the last that some task uses.
fn used_resources(tasks: &[Task]) -> usize
    ensures upper_bound { result ≤ resources }
    ensures unused { UnusedFrom tasks.now result }
{
    if !is_shared(tasks) {
        return 0;
    }
    for resource in (0..RESOURCES).rev() {
        if is_used(tasks, resource) {
            return resource + 1;
        }
    }
    0
}

// How many of the tasks left use a resource, and the longest section on it of those that have a level.
fn usage_on(tasks: &[Task], left: &[bool; MAX_TASKS], resource: usize) -> Usage
    requires few_tasks { length tasks.now ≤ max_tasks }
    requires resource_in_bounds { resource < resources }
    ensures { result ≡ usage_of tasks.now (marked left.now) resource }
{
    let mut usage = Usage::default();
    for (t, is_left) in tasks.iter().zip(left) {
        let section = t.section(resource);
        if *is_left {
            usage.users += u64::from(0 < section);
        } else {
            usage.held = usage.held.max(section);
        }
    }
    usage
}

impl Resources {
    // What is kept where these tasks are left.
    pub fn at(tasks: &[Task], left: &[bool; MAX_TASKS]) -> Resources
        requires { length tasks.now ≤ max_tasks }
        ensures { Tracks tasks.now (marked left.now) result }
    {
        let used = used_resources(tasks);
        let mut all = [Usage::default(); RESOURCES];
        for (k, kept) in all[..used].iter_mut().enumerate() {
            *kept = usage_on(tasks, left, k);
        }
        Resources { used, usage: all }
    }

    // A task left takes a level.
    pub fn take(&mut self, tasks: &[Task], task: TaskIndex)
        requires task_in_bounds { task.0 < length tasks.now }
        requires tracks { (left : ℕ → Bool) × T (left task.0) × Tracks tasks.now left self.old }
        ensures { (left : ℕ → Bool) → T (left task.0) → Tracks tasks.now left self.old
            → Tracks tasks.now (without left task.0) self.new }
    {
        let t = &tasks[task.0];
        for (k, kept) in self.usage[..self.used].iter_mut().enumerate() {
            let section = t.section(k);
            kept.users -= u64::from(0 < section);
            kept.held = kept.held.max(section);
        }
    }

    // The longest section held on a resource that some task left uses.
    pub fn blocking(&self) -> u64
        requires { self.now.used ≤ resources }
        ensures { result ≡ blocking_by self.now }
    {
        let mut blocking: u64 = 0;
        for kept in &self.usage[..self.used] {
            if 0 < kept.users {
                blocking = blocking.max(kept.held);
            }
        }
        blocking
    }
}

// The blocking of each task left, with the others that are left above it.
#[tactic(auto, using(crate::proofs::ResourcesLaws::blocking_level))]
pub fn level_blocking(tasks: &[Task], left: &[bool; MAX_TASKS]) -> u64
    requires { length tasks.now ≤ max_tasks }
    ensures { BlocksEach tasks.now (marked left.now) (marked left.now) result }
{
    Resources::at(tasks, left).blocking()
}
