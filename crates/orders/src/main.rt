// Standard input to a listing, or one line `bad`, line, number. A failed read or write is told on standard error.

#![tactic(auto)]

use input::fill;
use listing::MAX_LISTING;
use text::MAX_TEXT;

// One byte more than a text may have, so that a longer one is seen to be too long.
const ROOM: usize = MAX_TEXT + 1;

fn main(rt: HostRuntime) {
    let mut text = [0u8; ROOM];
    let filled = fill(&mut rt.stdin(), &mut text);
    if filled.ended.is_err() {
        let _ = rt.eprintln("orders: can't read standard input");
        return;
    }
    let mut out = [0u8; MAX_LISTING];
    let count = answer::report(&text[..filled.count], &mut out);
    if rt.write_all(&out[..count]).is_err() {
        let _ = rt.eprintln("orders: can't write standard output");
    }
}
