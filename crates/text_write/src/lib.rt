// Bytes and whole numbers, written at a place of a lent buffer. Each function answers the place after the whole text, as if there were room:
// so a caller knows afterwards how long the text is, and whether it fits. Merged timetables and the words of an answer are written by it.
#![tactic(auto)]

ghost use Rattle.std.specs.Prelude.{◌≡◌, ◌&&◌, ◌∷◌, [], leb};
ghost use Rattle.rules.specs.Limits.{most_text};
ghost use Rattle.rules.specs.Bytes.{spelled};
ghost use Rattle.text_write.specs.Written.{Written};

use rules::sizes::Text;

pub fn put_byte(buffer: &mut [u8], at: usize, b: u8) -> usize
    ensures { Written buffer.old at (b ∷ []) buffer.new result }
{
    if buffer.len() <= at {
        return at.saturating_add(1);
    }
    buffer[at] = b;
    at + 1
}

pub fn put_bytes(buffer: &mut [u8], at: usize, s: &[u8]) -> usize
    ensures { Written buffer.old at s.now buffer.new result }
{
    let mut place = at;
    for b in s {
        place = put_byte(buffer, place, *b);
    }
    place
}

// Digits count in tens.
const TEN: u32 = 10;

// No `u32` has more of them.
const DIGITS: usize = 10;

// The place of the last.
const LAST: usize = DIGITS - 1;

// A whole number: its digits, with no needless zero. They are laid from the back.
pub fn put_number(buffer: &mut [u8], at: usize, n: u32) -> usize
    ensures { Written buffer.old at (spelled n) buffer.new result }
{
    let mut digits = [0u8; DIGITS];
    let mut k = LAST;
    let mut left = n;
    // Kept (no plainer): how many digits a number has shows only as they are laid.
    while TEN <= left {
        digits[k] = b'0' + (left % TEN) as u8;
        left /= TEN;
        k -= 1;
    }
    digits[k] = b'0' + left as u8;
    put_bytes(buffer, at, &digits[k..])
}

// Whether a text that was written is no longer than its buffer, and no longer than a text may be: 16 asks it, of merges and of proposals.
pub fn fits(length: usize, room: usize) -> bool
    ensures { result ≡ (leb length room && leb length most_text) }
{
    length <= room && length <= Text::MOST
}
