// Why a call is refused, with the documents' numbers.

ghost use Rattle.std.specs.Prelude.{◌≡◌};
ghost use Rattle.taskset.specs.Numbering.{number};

#[derive(Clone, Copy, Debug, PartialEq, Eq)]
pub enum Refusal {
    // A row's period, execution time, deadline, jitter or a section is out of its range; the execution time of a join too.
    Period = 1,
    Execution = 2,
    Deadline = 3,
    Jitter = 4,
    Section = 5,
    // A rule names one task twice, and so does a join.
    SameTask = 6,
    // A line does not have its form, a text is too long, an output buffer too short.
    BadLine = 7,
    LongText = 8,
    ShortBuffer = 9,
    // The set has as many tasks as it can.
    FullTasks = 10,
    // A rule or a join names a task that is not there, or a call asks about one that is not there.
    NoSuchTask = 11,
    // The set has as many rules as it can.
    FullRules = 12,
    // A set without tasks, and one that no list of calls makes.
    NoTasks = 13,
    NotMade = 14,
    // A rule's weight is out of its range, and so is a budget.
    Weight = 15,
    Budget = 16,
    // Two tasks to join have different periods, or rules between them stand both ways.
    DifferentPeriods = 17,
    BothWays = 18,
    // The set has more rules than a short list.
    ManyRules = 24,
}

impl From<Refusal> for u64 {
    ghost from_gives = { λ refusal n. n ≡ number refusal };

    fn from(refusal: Refusal) -> u64 {
        refusal as u64
    }
}
