// The one call for host tools written in C; include/orders.h is its declaration.

#![tactic(auto)]

ghost use Rattle.std.specs.Prelude.{◌≡◌, length};
ghost use Rattle.taskset.specs.Outcome.{buffer_after};
ghost use Rattle.listing.specs.Listing.{fitted};
ghost use Rattle.answer.specs.Answer.{answer_to, host_number};
ghost use Rattle.answer.specs.Host.{HostGets};

use answer::answer;

#[tactic(auto)]
#[unsafe(no_mangle)]
pub extern "C" fn orders_solve(text: &[u8], out: &mut [u8]) -> u64
    ensures value { result ≡ host_number (fitted (length out.old) (answer_to text.now)) }
    ensures bytes { out.new ≡ buffer_after (fitted (length out.old) (answer_to text.now)) out.old }
    ensures replays { HostGets text.now result out.old out.new }
{
    match answer(text, out) {
        Ok(count) => 100 + count as u64,
        Err(refused) => u64::from(refused.refusal),
    }
}
