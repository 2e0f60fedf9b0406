// A reader: it stands over a text with a byte position, and hands on the line there as its own stretch of the text.

ghost use Rattle.std.specs.Prelude.{◌≡◌, ◌+◌, ◌≤◌, ◌<◌, drop, length, MatchOption};
ghost use Rattle.lines.specs.Decimal.{feed};
ghost use Rattle.lines.specs.Parts.{up_to};

use crate::{FEED, stretch};

#[derive(Clone, Copy)]
pub struct Reader<'a> {
    pub text: &'a [u8],
    pub at: usize,
}

impl<'a> Reader<'a> {
    // A reader over a text, at a position.
    pub fn stand(text: &'a [u8], at: usize) -> Reader<'a>
        ensures { (result.text ≡ text.entry) × (result.at ≡ at) }
    {
        Reader { text, at }
    }

    // The bytes from the position up to the next line feed, or to the end.
    pub fn line(self) -> &'a [u8]
        ensures { result.now ≡ up_to feed (drop self.entry.at self.entry.text.now) }
    {
        stretch(self.text, self.at, FEED)
    }

    // The line at the position, and on to the next one; none, and no further, where no line feed ends it.
    #[tactic(auto, using(crate::specs::PartsLaws::part_length))]
    pub fn next_line(&mut self) -> Option<&'a [u8]>
        ensures text { self.new.text ≡ self.old.text }
        ensures line { let here = up_to feed (drop self.old.at self.old.text.now) in
            let end = self.old.at + length here in
            MatchOption result ((length self.old.text.now ≤ end) × (self.new.at ≡ self.old.at))
            (λ line. (line.now ≡ here) × (end < length self.old.text.now) × (self.new.at ≡ end + 1)) }
    {
        let line = self.line();
        let end = self.at + line.len();
        if self.text.len() <= end {
            return None;
        }
        self.at = end + 1;
        Some(line)
    }
}
