// Bytes of lines: a line and its fields found in a text, numbers read from digits, and lines written.

#![tactic(auto)]

pub mod reader;

ghost use Rattle.std.specs.Prelude.{◌≡◌, List, ℕ, ◌+◌, ◌*◌, ◌<◌, ◌≤◌, length, drop};
ghost use Rattle.sets.specs.Onto.{onto};
ghost use Rattle.lines.specs.Decimal.{tab, digit_of, number_from, decimal, field};
ghost use Rattle.lines.specs.Parts.{up_to};
ghost use Rattle.lines.specs.Line.{line, lines_of, chunks, max_head, max_entries, max_line};

use memchr::memchr;

// What parts the fields of a line, and what ends it.
pub const TAB: u8 = 9;

pub const FEED: u8 = 10;

// The greatest number that another digit may follow: one of 6 digits.
const MAX_FRONT: u64 = 999_999;

// The number in a field, and where the field ends.
#[derive(Clone, Copy, PartialEq, Eq)]
pub struct Field {
    pub value: u64,
    pub end: usize,
}

// The stretch of bytes from a position up to the next mark, or to the end.
pub fn stretch(bytes: &[u8], at: usize, mark: u8) -> &[u8]
    ensures { result.now ≡ up_to mark (drop at bytes.now) }
{
    let rest = &bytes[at.min(bytes.len())..];
    let end = memchr(mark, rest).unwrap_or(rest.len());
    &rest[..end]
}

// The value of a digit.
fn digit(byte: u8) -> Option<u64>
    ensures { result ≡ digit_of byte }
{
    if byte.is_ascii_digit() {
        Some(u64::from(byte - b'0'))
    } else {
        None
    }
}

// The number in the field that starts at a position, which ends at a tab or where the line does; none where its bytes are
// not 1 to 7 digits with no leading zero.
#[tactic(auto, using(crate::specs::Reading::field_laws))]
pub fn number_from(line: &[u8], at: usize) -> Option<Field>
    ensures { result ≡ number_from at (up_to tab (drop at line.now)) }
{
    let (first, rest) = line.get(at..)?.split_first()?;
    let mut value = digit(*first)?;
    for (more, byte) in rest.iter().enumerate() {
        if *byte == TAB {
            return Some(Field {
                value,
                end: at + 1 + more,
            });
        }
        if value == 0 || MAX_FRONT < value {
            return None;
        }
        value = value * 10 + digit(*byte)?;
    }
    Some(Field {
        value,
        end: line.len(),
    })
}

// How many digits a number has.
#[tactic(auto, using(crate::specs::Writing::digit_counts))]
pub fn width(n: u64) -> usize
    ensures { result ≡ length (decimal n) }
{
    let mut digits = 1;
    let mut rest = n;
    // Nothing to go over by a `for`: the number itself is divided until one digit is left.
    while 9 < rest {
        rest /= 10;
        digits += 1;
    }
    digits
}

// Writes a number and the byte that ends its field into the front of a buffer, and says how many bytes that is.
#[tactic(auto, using(crate::specs::Writing::digit_counts))]
pub fn write_number(out: &mut [u8], n: u64, end: u8) -> usize
    requires { length (decimal n) < length out.old }
    ensures value { result ≡ length (decimal n) + 1 }
    ensures written { out.new ≡ onto (field n end) out.old }
{
    let digits = width(n);
    out[digits] = end;
    let mut rest = n;
    // By place: what `iter_mut().rev()` writes is not known after the loop.
    for place in (1..digits).rev() {
        out[place] = b'0' + (rest % 10) as u8;
        rest /= 10;
    }
    out[0] = b'0' + rest as u8;
    digits + 1
}

// How many bytes a line has whose head has this many.
#[tactic(auto, using(crate::specs::LineWriting::sizes))]
pub fn line_size(head: usize, numbers: &[u64]) -> usize
    requires head_le_max_head { head ≤ max_head }
    requires in_bounds { (1 ≤ length numbers.now) × (length numbers.now ≤ max_entries) }
    ensures by_index { (h : List ℕ) → length h ≡ head → result ≡ length (line h numbers.now) }
    ensures short { result ≤ max_line }
{
    let mut bytes = head;
    for number in numbers {
        bytes += width(*number) + 1;
    }
    bytes
}

// Writes a line into the front of a buffer, and says how many bytes that is: the head, every number but the last with a
// tab after it, and the last with a line feed, each into the rest of the buffer.
#[tactic(auto, using(crate::specs::LineWriting::line_rooms))]
pub fn put_line(out: &mut [u8], head: &[u8], numbers: &[u64]) -> usize
    requires in_bounds { 1 ≤ length numbers.now }
    requires numbers_in_bounds { length (line head.now numbers.now) ≤ length out.old }
    ensures value { result ≡ length (line head.now numbers.now) }
    ensures written { out.new ≡ onto (line head.now numbers.now) out.old }
{
    out[..head.len()].copy_from_slice(head);
    let mut at = head.len();
    let (last, others) = numbers.split_last().unwrap();
    for number in others {
        at += write_number(&mut out[at..], *number, TAB);
    }
    at + write_number(&mut out[at..], *last, FEED)
}

// How many bytes the lines have that `put_lines` writes for a head of this many.
#[tactic(auto, using(crate::specs::LineWriting::line_sizes))]
pub fn lines_size<const W: usize>(head: usize, lines: &[[u64; W]]) -> usize
    requires head_le_max_head { head ≤ max_head }
    requires few { (1 ≤ W) × (W * length lines.now ≤ max_entries) }
    ensures by_index { (h : List ℕ) → length h ≡ head → result ≡ length (lines_of h lines.now) }
    ensures short { result ≤ max_line * max_entries }
{
    let mut bytes = 0;
    for line in lines {
        bytes += line_size(head, line);
    }
    bytes
}

// Writes lines with one head, one after the other, and says how many bytes that is.
#[tactic(auto, using(crate::specs::LineWriting::line_room))]
pub fn put_lines<const W: usize>(out: &mut [u8], head: &[u8], lines: &[[u64; W]]) -> usize
    requires some { 1 ≤ W }
    requires numbers_in_bounds { length (lines_of head.now lines.now) ≤ length out.old }
    ensures value { result ≡ length (lines_of head.now lines.now) }
    ensures written { out.new ≡ onto (lines_of head.now lines.now) out.old }
{
    let mut at = 0;
    for line in lines {
        at += put_line(&mut out[at..], head, line);
    }
    at
}

// How many bytes the lines have that `put_rows` writes for a head of this many.
pub fn rows_size(head: usize, width: usize, numbers: &[u64]) -> usize
    requires head_le_max_head { head ≤ max_head }
    requires le_width { (1 ≤ width) × (length numbers.now ≤ max_entries) }
    ensures by_index { (h : List ℕ) → length h ≡ head → result ≡ length (lines_of h (chunks width numbers.now)) }
    ensures short { result ≤ max_line * max_entries }
{
    let mut bytes = 0;
    for row in numbers.chunks_exact(width) {
        bytes += line_size(head, row);
    }
    bytes
}

// Writes a line for each `width` numbers, one after the other, and says how many bytes that is; a rest is left out.
pub fn put_rows(out: &mut [u8], head: &[u8], width: usize, numbers: &[u64]) -> usize
    requires le_width { 1 ≤ width }
    requires numbers_in_bounds { length (lines_of head.now (chunks width numbers.now)) ≤ length out.old }
    ensures value { result ≡ length (lines_of head.now (chunks width numbers.now)) }
    ensures written { out.new ≡ onto (lines_of head.now (chunks width numbers.now)) out.old }
{
    let mut at = 0;
    for row in numbers.chunks_exact(width) {
        at += put_line(&mut out[at..], head, row);
    }
    at
}
