// Texts: a line's fields, what a line asks, and reading a text into a fresh task set.

#![tactic(auto)]

ghost use Rattle.std.specs.Prelude.{◌≡◌, ◌≤◌, length, drop, IfOk};
ghost use Rattle.lines.specs.Decimal.{tab};
ghost use Rattle.lines.specs.Parts.{parts};
ghost use Rattle.taskset.specs.Adding.{fresh_set, holding};
ghost use Rattle.text.specs.Text.{at_no_line, line_in, reading, handed, numbers_in};

use lines::TAB;
use lines::reader::Reader;
use taskset::{Call, RULE_NUMBERS, Refusal, Rule, TASK_NUMBERS, Task, TaskSet};

pub const MAX_TEXT: usize = 16_384;

// The letters of the lines that add a task and a rule.
const TASK_LETTER: u8 = b't';

const RULE_LETTER: u8 = b'r';

// Why a text is refused, and its line, counted from 1; a refusal that is no line's own has line 0.
#[derive(Clone, Copy, Debug, PartialEq, Eq)]
pub struct RefusedAt {
    pub line: u64,
    pub refusal: Refusal,
}

// One that is no line's own.
impl From<Refusal> for RefusedAt {
    ghost from_gives = { λ refusal at. at ≡ at_no_line refusal };

    fn from(refusal: Refusal) -> RefusedAt {
        RefusedAt { line: 0, refusal }
    }
}

// What reading a text gives: the set of its lines' calls; or why it is refused, and an empty set.
#[derive(Clone, Copy)]
pub struct Reading {
    pub answer: Result<(), RefusedAt>,
    pub set: TaskSet,
}

// The fields from a position on, as so many numbers; none where a field is no number, or where they are fewer or more.
#[tactic(auto, using(crate::specs::Fields::field_laws))]
fn read_numbers<const N: usize>(line: &[u8], from: usize) -> Option<[u64; N]>
    requires { from ≤ length line.now }
    ensures { result ≡ numbers_in N (parts tab (drop from line.now)) }
{
    let mut numbers = [0; N];
    let mut at = from;
    for number in numbers.iter_mut() {
        let field = lines::number_from(line, at)?;
        *number = field.value;
        at = field.end + 1;
    }
    (line.len() < at).then_some(numbers)
}

// What a line asks, where it can be read.
#[tactic(auto, using(crate::specs::LineLaws::line_laws))]
pub fn parse(line: &[u8]) -> Option<Call>
    ensures { result ≡ line_in line.now }
{
    match line {
        [TASK_LETTER, TAB, ..] => {
            let numbers = read_numbers::<TASK_NUMBERS>(line, 2)?;
            Some(Call::AddTask(Task::from(numbers)))
        }
        [RULE_LETTER, TAB, ..] => {
            let numbers = read_numbers::<RULE_NUMBERS>(line, 2)?;
            Some(Call::AddRule(Rule::from(numbers)))
        }
        _ => None,
    }
}

// Reads a text into a fresh set, a line at a time.
#[tactic(auto, using(crate::specs::Lines::text_laws))]
fn hear_each(text: &[u8], set: &mut TaskSet) -> Result<(), RefusedAt>
    requires { set.old ≡ fresh_set }
    ensures answer { result ≡ (reading text.now).answer }
    ensures set { IfOk result (λ _. set.new ≡ holding (reading text.now).lists) }
{
    if MAX_TEXT < text.len() {
        return Err(RefusedAt::from(Refusal::LongText));
    }
    let mut reader = Reader::stand(text, 0);
    let mut line = 1u64;
    // No `for` over the lines: document 01 has a reader with a position, and a line that no line feed ends is no line.
    while reader.at < text.len() {
        let unreadable = RefusedAt {
            line,
            refusal: Refusal::BadLine,
        };
        let Some(bytes) = reader.next_line() else {
            return Err(unreadable);
        };
        let Some(call) = parse(bytes) else {
            return Err(unreadable);
        };
        set.hear(call)
            .map_err(|refusal| RefusedAt { line, refusal })?;
        line += 1;
    }
    Ok(())
}

// Reads a text into a set, whatever stood there; a refused text leaves it empty.
#[tactic(auto, using(crate::specs::Asking::reading_none))]
pub fn hear_lines(text: &[u8], set: &mut TaskSet) -> Result<(), RefusedAt>
    ensures answer { result ≡ (reading text.now).answer }
    ensures set { set.new ≡ holding (reading text.now).lists }
{
    *set = TaskSet::fresh();
    let answer = hear_each(text, set);
    if answer.is_err() {
        *set = TaskSet::fresh();
    }
    answer
}

// Reads a text into a fresh set.
#[tactic(auto)]
pub fn read(text: &[u8]) -> Reading
    ensures { result ≡ handed (reading text.now) }
{
    let mut set = TaskSet::fresh();
    let answer = hear_lines(text, &mut set);
    Reading { answer, set }
}
