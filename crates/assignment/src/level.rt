// A level that is to be filled.

ghost use Rattle.std.specs.Prelude.{length};
ghost use Rattle.sets.specs.Bounded.{Subset};
ghost use Rattle.sets.specs.Marks.{marked};
ghost use Rattle.response.specs.Resources.{BlocksEach};

use taskset::{MAX_TASKS, Tasks};

// The tasks left without a level, those of them that are ready, and the blocking of each of these with the others left above it.
#[derive(Clone, Copy)]
pub struct OpenLevel<'a> {
    pub tasks: Tasks<'a>,
    pub ready: &'a [bool; MAX_TASKS],
    pub left: &'a [bool; MAX_TASKS],
    pub blocking: u64,
    ghost are_left: { Subset (length tasks.list.now) (marked ready.now) (marked left.now) },
    ghost blocked: { BlocksEach tasks.list.now (marked ready.now) (marked left.now) blocking },
}
