// Texts parted by form feeds on standard input, and what `orders` writes for each, one after the other.

#![tactic(auto)]

use input::fill;
use listing::MAX_LISTING;

const FORM_FEED: u8 = 12;

// Answers each text.
fn answer_all(rt: &impl Print, texts: &[u8]) {
    for text in texts.split(|byte| *byte == FORM_FEED) {
        let mut out = [0u8; MAX_LISTING];
        let count = answer::report(text, &mut out);
        let _ = rt.write_all(&out[..count]);
    }
}

fn main(rt: HostRuntime) {
    let mut texts = [0u8; 524288];
    let filled = fill(&mut rt.stdin(), &mut texts);
    answer_all(&rt, &texts[..filled.count]);
}
