// What a climb to a response window goes over.

ghost use Rattle.response.specs.Load.{IsLoad};

use taskset::Tasks;

// A base, and beside it some of the tasks, by their indices.
#[derive(Clone, Copy)]
pub struct Load<'a> {
    pub base: u64,
    pub tasks: Tasks<'a>,
    pub kept: &'a [u8],
    ghost is_load: { IsLoad base tasks.list.now kept.now },
}
