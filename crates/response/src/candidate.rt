// A task for which a response is asked.

ghost use Rattle.std.specs.Prelude.{◌≡◌, ◌<◌, length};
ghost use Rattle.sets.specs.Marks.{marked};
ghost use Rattle.response.specs.Blocking.{blocking_of};

use taskset::{MAX_TASKS, TaskIndex, Tasks};

// A task, with the marked tasks above it and the blocking that follows.
#[derive(Clone, Copy)]
pub struct Candidate<'a> {
    pub tasks: Tasks<'a>,
    pub task: TaskIndex,
    pub above: [bool; MAX_TASKS],
    pub blocking: u64,
    ghost inside: { task.0 < length tasks.list.now },
    ghost blocked: { blocking ≡ blocking_of tasks.list.now task.0 (marked above) },
}
