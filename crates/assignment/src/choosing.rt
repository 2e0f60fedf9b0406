// Who takes a level.

ghost use Rattle.std.specs.Prelude.{◌≡◌, ◌-◌, ◌≤◌, ◌<◌, T, length};
ghost use Rattle.sets.specs.Bounded.{Subset, without, greatest};
ghost use Rattle.sets.specs.Marks.{marked};
ghost use Rattle.response.specs.Blocking.{blocking_of};
ghost use Rattle.response.specs.Resources.{BlocksEach};
ghost use Rattle.response.specs.Agreement.{met_by};
ghost use Rattle.response.specs.Timing.{timing_of, up_to_deadline};
ghost use Rattle.response.specs.Views.{tasks_of, above_of};
ghost use Rattle.assignment.specs.Orders.{no_rule};
ghost use Rattle.assignment.specs.LateTasks.{late_response};
ghost use Rattle.assignment.specs.Audsley.{response_at, bare};
ghost use Rattle.assignment.specs.Search.{chosen, within, AnyOf, Chose, Searched, Known, Helps};
ghost use Rattle.assignment.specs.LevelWindow.{Windowless, LevelWindow};
ghost use Rattle.assignment.specs.Views.{candidates_at};

use crate::{Choice, Hints, OpenLevel, Search};
use response::{Candidate, level_blocking};
use taskset::{MAX_TASKS, Task, TaskIndex, Tasks};

// So many tasks are tried for a level by themselves before its window is searched for.
const TRIED_ALONE: u64 = 2;

// A task left, with the others that are left above it.
fn candidate<'a>(
    tasks: Tasks<'a>,
    left: &[bool; MAX_TASKS],
    blocking: u64,
    task: TaskIndex,
) -> Candidate<'a>
    requires task_in_bounds { task.0 < length tasks.list.now }
    requires blocking_value { blocking ≡ blocking_of tasks.list.now task.0 (without (marked left.now) task.0) }
    ensures tasks { tasks_of result ≡ tasks.entry.list.now }
    ensures task { result.task ≡ task }
    ensures above { above_of result ≡ without (marked left.now) task.0 }
{
    let mut above = *left;
    above[task.0] = false;
    Candidate {
        tasks,
        task,
        above,
        blocking,
    }
}

// The response of a task at a level. The search stops at the deadline: whether it is met is known there.
#[tactic(auto, using(crate::specs::Ready::level_stops))]
fn level_response(candidate: &Candidate<'_>) -> Option<u64>
    ensures value { result ≡ response_at (tasks_of candidate.now) candidate.now.task.0 (above_of candidate.now) }
    ensures stops { result ≡ up_to_deadline (timing_of (tasks_of candidate.now) candidate.now.task.0 (above_of candidate.now)) }
{
    candidate.response_time(candidate.tasks.list[candidate.task.0].deadline)
}

// The response that is reported of a task left without a level: up to its period, with the others that are left above it.
pub fn late_response(
    tasks: Tasks<'_>,
    left: &[bool; MAX_TASKS],
    blocking: u64,
    task: TaskIndex,
) -> u64
    requires task_in_bounds { task.0 < length tasks.list.now }
    requires blocking_value { blocking ≡ blocking_of tasks.list.now task.0 (without (marked left.now) task.0) }
    ensures { result ≡ late_response tasks.entry.list.now (marked left.now) task.0 }
{
    candidate(tasks, left, blocking, task).timing().reported()
}

// The room for a window within a task's deadline.
fn room(task: &Task) -> u64
    ensures { result ≡ task.now.deadline - task.now.jitter }
{
    task.deadline.saturating_sub(task.jitter)
}

// At a level every task left has the same window, as far as its deadline reaches. It is searched for with the one of these that has
// the most room. None lies within `known`, so where nobody has more room, nothing is searched for.
fn level_window(
    tasks: Tasks<'_>,
    left: &[bool; MAX_TASKS],
    these: &[bool; MAX_TASKS],
    blocking: u64,
    known: u64,
) -> Option<u64>
    requires are_left { Subset (length tasks.list.now) (marked these.now) (marked left.now) }
    requires blocked { BlocksEach tasks.list.now (marked these.now) (marked left.now) blocking }
    requires windowless { Windowless tasks.list.now (marked these.now) (marked left.now) known }
    ensures { LevelWindow tasks.entry.list.now (marked these.now) (marked left.now) result }
{
    let mut most = known;
    let mut roomiest = TaskIndex(0);
    for (j, t) in tasks.list.iter().enumerate() {
        let room = room(t);
        if these[j] & (most < room) {
            most = room;
            roomiest = TaskIndex(j);
        }
    }
    if most == known {
        return None;
    }
    candidate(tasks, left, blocking, roomiest).window_above(known + 1, most)
}

// The response that a window gives, where it meets the task's deadline.
fn met(task: &Task, window: Option<u64>) -> Option<u64>
    ensures { result ≡ met_by task.now.jitter task.now.deadline window }
{
    let room = task.deadline.checked_sub(task.jitter)?;
    let window = window?;
    if room < window {
        return None;
    }
    Some(task.jitter + window)
}

// For hints: the tasks left that meet their deadline with the others that are left above them.
pub fn passing(tasks: Tasks<'_>, left: &[bool; MAX_TASKS]) -> [bool; MAX_TASKS]
    ensures { Known (bare tasks.entry.list.now) (marked left.now) (marked result) }
{
    let blocking = level_blocking(tasks.list, left);
    let window = level_window(tasks, left, left, blocking, 0);
    let mut known = [false; MAX_TASKS];
    for (j, t) in tasks.list.iter().enumerate() {
        if left[j] {
            known[j] = met(t, window).is_some();
        }
    }
    known
}

impl OpenLevel<'_> {
    // The response of a ready task with the others that are left above it.
    fn response(&self, task: TaskIndex) -> Option<u64>
        requires task_in_bounds { task.0 < length self.now.tasks.list.now }
        requires ready { T (marked self.now.ready.now task.0) }
        ensures { result ≡ candidates_at self.now task.0 }
    {
        level_response(&candidate(self.tasks, self.left, self.blocking, task))
    }

    // Of the ready tasks that meet their deadline, the one with the greatest index takes the level. A few are tried by themselves,
    // since mostly the first is the one; one that has no more room than a late one is late too.
    #[tactic(auto, using(crate::specs::Ready::choosing_steps))]
    fn choose(&self) -> Option<Choice>
        ensures { result ≡ chosen (length self.now.tasks.list.now) (candidates_at self.now) }
    {
        let mut known = 0;
        let mut tried = 0u64;
        for i in (0..self.tasks.list.len()).rev() {
            if !self.ready[i] {
                continue;
            }
            let room = room(&self.tasks.list[i]);
            if room <= known {
                continue;
            }
            if tried == TRIED_ALONE {
                return self.choose_below(i + 1, known);
            }
            let task = TaskIndex(i);
            if let Some(response) = self.response(task) {
                return Some(Choice { task, response });
            }
            known = room;
            tried += 1;
        }
        None
    }

    // The same where no task from `end` on may take the level, and none that is ready has a window within `known`.
    #[tactic(auto, using(crate::specs::Ready::choosing_steps))]
    fn choose_below(&self, end: usize, known: u64) -> Option<Choice>
        requires end_in_bounds { end ≤ length self.now.tasks.list.now }
        requires late { greatest end (within (candidates_at self.now)) ≡ greatest (length self.now.tasks.list.now) (within (candidates_at self.now)) }
        requires windowless { Windowless self.now.tasks.list.now (marked self.now.ready.now) (marked self.now.left.now) known }
        ensures { result ≡ chosen (length self.now.tasks.list.now) (candidates_at self.now) }
    {
        let window = level_window(self.tasks, self.left, self.ready, self.blocking, known);
        for i in (0..end).rev() {
            if self.ready[i] {
                if let Some(response) = met(&self.tasks.list[i], window) {
                    let task = TaskIndex(i);
                    return Some(Choice { task, response });
                }
            }
        }
        None
    }

    // A ready task that meets its deadline at this level: of the tasks left, the one that is furthest down in another search;
    // where that one is not ready, the one of `choose`.
    #[tactic(auto, using(crate::proofs::Preemptive::last_steps))]
    fn choose_last(&self, other: &Search) -> Option<Choice>
        requires { Searched (bare self.now.tasks.list.now) no_rule other.now }
        ensures { AnyOf (length self.now.tasks.list.now) (candidates_at self.now) result }
    {
        for level in (other.free..self.tasks.list.len()).rev() {
            let task = other.order[level];
            if self.ready[task.0] {
                return Some(Choice { task, response: 0 });
            }
            if self.left[task.0] {
                break;
            }
        }
        self.choose()
    }

    // A ready task that meets its deadline at this level: one that is known to, else the one of `choose_last`.
    fn choose_any(&self, hints: Hints<'_>) -> Option<Choice>
        requires known { Known (bare self.now.tasks.list.now) (marked self.now.left.now) (marked hints.known.now) }
        requires searched { Searched (bare self.now.tasks.list.now) no_rule hints.other.now }
        ensures { AnyOf (length self.now.tasks.list.now) (candidates_at self.now) result }
    {
        for j in (0..self.tasks.list.len()).rev() {
            if self.ready[j] & hints.known[j] {
                return Some(Choice {
                    task: TaskIndex(j),
                    response: 0,
                });
            }
        }
        self.choose_last(hints.other)
    }

    // Who takes the level: with hints one of those that may, without them the one of `choose`.
    #[tactic(auto, using(crate::specs::Filling::chosen_any))]
    pub fn taker(&self, hints: Option<Hints<'_>>) -> Option<Choice>
        requires { Helps (bare self.now.tasks.list.now) (marked self.now.left.now) hints }
        ensures { Chose (length self.now.tasks.list.now) (candidates_at self.now) hints.entry result }
    {
        match hints {
            Some(hints) => self.choose_any(hints),
            None => self.choose(),
        }
    }
}
