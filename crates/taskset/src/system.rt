// What the analysis sees of a task set: its lists, lent, of which adding has taken every entry.

ghost use Rattle.std.specs.Prelude.{◌≡◌};
ghost use Rattle.taskset.specs.Model.{SoundTasks, Sound};

use crate::{Rule, Task};

// Tasks.
#[derive(Clone, Copy)]
pub struct Tasks<'a> {
    pub list: &'a [Task],
    ghost sound: { SoundTasks list.now },
}

// Tasks, and rules between them.
#[derive(Clone, Copy)]
pub struct System<'a> {
    pub tasks: &'a [Task],
    pub rules: &'a [Rule],
    ghost sound: { Sound (record { tasks = tasks.now; rules = rules.now }) },
}

impl<'a> System<'a> {
    // Its tasks alone.
    pub fn without_rules(self) -> Tasks<'a>
        ensures { result.list.now ≡ self.entry.tasks.now }
    {
        Tasks { list: self.tasks }
    }
}
