// What a text gets: it is read, solved and listed, or refused.

#![tactic(auto)]

ghost use Rattle.std.specs.Prelude.{◌≡◌, ◌≤◌, length, take, IfOk};
ghost use Rattle.sets.specs.Onto.{onto};
ghost use Rattle.taskset.specs.Numbering.{number};
ghost use Rattle.taskset.specs.Outcome.{buffer_after};
ghost use Rattle.listing.specs.Listing.{fitted, max_listing};
ghost use Rattle.answer.specs.Answer.{answer_to, line_of, answered, bad_line, report, max_bad};
ghost use Rattle.answer.specs.Host.{TextGives};

use lines::put_line;
use listing::show;
use taskset::TaskSet;
use text::{RefusedAt, hear_lines};
use verdict::decide;

// Reads a text, decides, and shows the verdict: the listing's byte count, or refusals 8, the lines', 13, then 9.
pub fn answer(text: &[u8], out: &mut [u8]) -> Result<usize, RefusedAt>
    ensures value { result ≡ answered (line_of text.now) (fitted (length out.old) (answer_to text.now)) }
    ensures bytes { out.new ≡ buffer_after (fitted (length out.old) (answer_to text.now)) out.old }
    ensures gives { IfOk result (λ count. TextGives text.now count out.old out.new) }
{
    let mut set = TaskSet::fresh();
    hear_lines(text, &mut set)?;
    let system = set.system();
    let decided = decide(system);
    let count = show(&decided, system, out)?;
    Ok(count)
}

// Writes one line `bad`, line, number into the front of a buffer, and says how many bytes that is.
#[tactic(auto, using(crate::specs::Answering::bad_short))]
fn write_bad(out: &mut [u8], bad: RefusedAt) -> usize
    requires { max_bad ≤ length out.old }
    ensures value { result ≡ length (bad_line bad.line (number bad.refusal)) }
    ensures bytes { out.new ≡ onto (bad_line bad.line (number bad.refusal)) out.old }
{
    put_line(out, b"bad\t", &[bad.line, u64::from(bad.refusal)])
}

// Writes what the program `orders` writes for a text: the listing, or one line `bad`, line, number.
#[tactic(auto)]
pub fn report(text: &[u8], out: &mut [u8]) -> usize
    requires { max_listing ≤ length out.old }
    ensures value { result ≡ length (report text.now) }
    ensures bytes { out.new ≡ onto (report text.now) out.old }
    ensures front { (result ≤ length out.new) × (result ≡ length (take result out.new)) }
{
    match answer(text, out) {
        Ok(count) => count,
        Err(bad) => write_bad(out, bad),
    }
}
