// Listing a verdict: its order, or its core with the late tasks under an empty one, is written into a lent buffer, a line at a time.

#![tactic(auto)]

ghost use Rattle.std.specs.Prelude.{◌≡◌, ℕ, ◌≤◌, ◌<◌, T, length, take, IfOk};
ghost use Rattle.sets.specs.Bounded.{without};
ghost use Rattle.sets.specs.Collected.{collected};
ghost use Rattle.sets.specs.Marks.{marked};
ghost use Rattle.lines.specs.Line.{max_head};
ghost use Rattle.taskset.specs.Refusals.{max_tasks, max_rules};
ghost use Rattle.taskset.specs.Adding.{lists};
ghost use Rattle.taskset.specs.Views.{lists_of};
ghost use Rattle.taskset.specs.Outcome.{shown_as, buffer_after};
ghost use Rattle.response.specs.Blocking.{blocking_of};
ghost use Rattle.assignment.specs.LateTasks.{unassignable};
ghost use Rattle.verdict.specs.Verdict.{solving};
ghost use Rattle.listing.specs.Listing.{level_lines, rule_line, late_line, late_lines, listing_with, outcome, fitted, listed};
ghost use Rattle.listing.specs.Gives.{Gives};

use assignment::late_response;
use lines::{line_size, lines_size, put_line, put_lines};
use response::level_blocking;
use taskset::{MAX_RULES, MAX_TASKS, Refusal, Rule, System, TaskIndex, TaskSet, Tasks};
use verdict::{Decided, Finding, Verdict, decide};

// The bytes that are always enough for a listing.
pub const MAX_LISTING: usize = 1289;

// The numbers of a level's or a rule's line, and of a late line.
const WIDTH: usize = 3;

const LATE_WIDTH: usize = 2;

// What listing a set answers: the listing's byte count or why it is refused, and the set, as it was.
#[derive(Clone, Copy)]
pub struct Listed {
    pub shown: Result<usize, Refusal>,
    pub set: TaskSet,
}

// The lines of an order: each level from 0, its task and that task's response.
#[tactic(auto, using(sets::specs::Collected::collecting, std::proofs::lemmas::Grind::common_steps))]
fn level_lines(verdict: &Verdict, n: usize, lines: &mut [[u64; WIDTH]])
    requires few { n ≤ max_tasks }
    requires room { n ≤ length lines.old }
    ensures { take n lines.new ≡ level_lines verdict.now.order verdict.now.responses n }
{
    for (k, line) in lines[..n].iter_mut().enumerate() {
        *line = [k as u64, verdict.order[k].0 as u64, verdict.responses[k]];
    }
}

// A line for each marked index below n, rising; and how many they are.
#[tactic(auto, using(sets::specs::Collected::collecting, std::proofs::lemmas::Grind::common_steps))]
fn marked_lines<L: Copy, F: Fn(usize) -> L>(
    marks: &[bool],
    n: usize,
    line: F,
    lines: &mut [L],
) -> usize
    ghost line_of: { ℕ → L }
    requires few { n ≤ length marks.now }
    requires room { n ≤ length lines.old }
    requires callable { (k : ℕ) → k < n → T (marked marks.now k) → F.pre line k }
    requires computes { (k : ℕ) (r : L) → k < n → T (marked marks.now k) → F.post line k r → r ≡ line_of k }
    ensures value { result ≡ length (collected (marked marks.now) line_of n) }
    ensures lines { take result lines.new ≡ collected (marked marks.now) line_of n }
{
    let mut count = 0;
    for (k, is_marked) in marks[..n].iter().enumerate() {
        if *is_marked {
            lines[count] = line(k);
            count += 1;
        }
    }
    count
}

// The lines of a core: each rule in it, rising, with its two tasks; and how many they are.
fn rule_lines(core: &[bool; MAX_RULES], rules: &[Rule], lines: &mut [[u64; WIDTH]]) -> usize
    requires few { length rules.now ≤ max_rules }
    requires room { length rules.now ≤ length lines.old }
    ensures value { result ≡ length (collected (marked core.now) (rule_line rules.now) (length rules.now)) }
    ensures lines { take result lines.new ≡ collected (marked core.now) (rule_line rules.now) (length rules.now) }
{
    let line = |k: usize| -> [u64; WIDTH]
        requires { k < length rules.now }
        ensures { result ≡ rule_line rules.entry.now k }
    {
        let rule = &rules[k];
        [k as u64, rule.higher.0 as u64, rule.lower.0 as u64]
    };
    marked_lines(core, rules.len(), line, lines)
}

// The late lines: each task left, rising, with its response; and how many they are.
fn late_lines(left: &[bool; MAX_TASKS], tasks: Tasks<'_>, lines: &mut [[u64; LATE_WIDTH]]) -> usize
    requires { length tasks.list.now ≤ length lines.old }
    ensures value { result ≡ length (late_lines tasks.entry.list.now (marked left.now)) }
    ensures lines { take result lines.new ≡ late_lines tasks.entry.list.now (marked left.now) }
{
    let blocking = level_blocking(tasks.list, left);
    let line = move |k: usize| -> [u64; LATE_WIDTH]
        requires task { k < length tasks.list.now }
        requires blocks { blocking ≡ blocking_of tasks.list.now k (without (marked left.now) k) }
        ensures { result ≡ late_line tasks.entry.list.now (marked left.entry.now) k }
    { [k as u64, late_response(tasks, left, blocking, TaskIndex(k))] };
    marked_lines(left, tasks.list.len(), line, lines)
}

// Writes a listing where there is room: 9 where there isn't, which is known before the first byte is written.
#[tactic(auto, using(crate::specs::ListingLaws::listing_size, std::proofs::lemmas::Grind::common_steps))]
fn write(
    head: &[u8],
    lines: &[[u64; WIDTH]],
    late: &[[u64; LATE_WIDTH]],
    out: &mut [u8],
) -> Result<usize, Refusal>
    requires head_len_bound { length head.now ≤ max_head }
    requires lines_len_bound { length lines.now ≤ max_rules }
    requires late_len_bound { length late.now ≤ max_tasks }
    ensures value { result ≡ shown_as (fitted (length out.old) (Ok (listing_with head.now lines.now late.now))) }
    ensures bytes { out.new ≡ buffer_after (fitted (length out.old) (Ok (listing_with head.now lines.now late.now))) out.old }
{
    let count = [lines.len() as u64];
    let late_head = b"late\t";
    let size = line_size(head.len(), &count)
        + lines_size(0, lines)
        + lines_size(late_head.len(), late);
    if out.len() < size {
        return Err(Refusal::ShortBuffer);
    }
    let mut at = put_line(out, head, &count);
    at += put_lines(&mut out[at..], b"", lines);
    put_lines(&mut out[at..], late_head, late);
    Ok(size)
}

// Shows what was decided on a system: why it is refused, else the listing, or 9.
pub fn show(decided: &Decided, system: System<'_>, out: &mut [u8]) -> Result<usize, Refusal>
    requires { marked decided.now.left ≡ unassignable (lists_of system) }
    ensures value { result ≡ shown_as (fitted (length out.old) (outcome (lists_of system.entry) decided.now.verdict)) }
    ensures bytes { out.new ≡ buffer_after (fitted (length out.old) (outcome (lists_of system.entry) decided.now.verdict)) out.old }
{
    // Arrays of fixed size, of which so many lines are used, since nothing is allocated.
    match decided.verdict.answer? {
        Finding::Order => {
            let n = system.tasks.len();
            let mut lines = [[0u64; WIDTH]; MAX_TASKS];
            level_lines(&decided.verdict, n, &mut lines);
            write(b"order\t", &lines[..n], &[], out)
        }
        Finding::Core => {
            let mut lines = [[0u64; WIDTH]; MAX_RULES];
            let mut late = [[0u64; LATE_WIDTH]; MAX_TASKS];
            let count = rule_lines(&decided.verdict.core, system.rules, &mut lines);
            let late_count = late_lines(&decided.left, system.without_rules(), &mut late);
            write(b"core\t", &lines[..count], &late[..late_count], out)
        }
    }
}

// Solves a set and lists the verdict: refusals 14 and 13, then 9.
#[tactic(auto, using(crate::proofs::Showing::outcome_made, crate::proofs::Showing::outcome_unmade))]
pub fn list(set: TaskSet, out: &mut [u8]) -> Listed
    ensures value { result ≡ listed set (fitted (length out.old) (outcome (lists set) (solving set).verdict)) }
    ensures bytes { out.new ≡ buffer_after (fitted (length out.old) (outcome (lists set) (solving set).verdict)) out.old }
    ensures gives { IfOk result.shown (λ count. Gives (lists set) (solving set).verdict count out.old out.new) }
{
    let Some(system) = set.checked() else {
        return Listed {
            shown: Err(Refusal::NotMade),
            set,
        };
    };
    let decided = decide(system);
    let shown = show(&decided, system, out);
    Listed { shown, set }
}
