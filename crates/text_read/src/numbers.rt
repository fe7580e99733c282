// Digits and whole numbers. A number past the greatest id is out of range everywhere, so all of those are one: no count of digits wraps.
ghost use Rattle.std.specs.Prelude.{◌≡◌, min, drop};
ghost use Rattle.rules.specs.Bytes.{plain, whole_of};
ghost use Rattle.text_read.specs.Held.{past_id, ran_from, whole_held};

use rules::sizes::Id;

// Why a text says no whole number up to the greatest id.
#[derive(Clone, Copy)]
pub enum Unread {
    // Past the greatest id.
    Beyond,
    Malformed,
}

// A run of digits: its value, and the place after it.
#[derive(Clone, Copy)]
pub struct Ran {
    pub value: u32,
    pub next: usize,
}

// Past every id.
const PAST: u32 = Id::MOST + 1;

// The value, or one past the greatest id.
fn capped(value: u64) -> u32
    ensures { result ≡ min value past_id }
{
    value.min(u64::from(PAST)) as u32
}

// The digits from `from` on, which follow the number `n`.
pub fn digits(s: &[u8], from: usize, n: u32) -> Ran
    ensures { result ≡ ran_from n from (drop from s.now) }
{
    let mut value = capped(u64::from(n));
    for next in from..s.len() {
        let b = s[next];
        if !b.is_ascii_digit() {
            return Ran { value, next };
        }
        value = capped(u64::from(value) * 10 + u64::from(b - b'0'));
    }
    Ran {
        value,
        next: from.max(s.len()),
    }
}

// One digit, or more of which the first is not 0.
fn is_plain(s: &[u8]) -> bool
    ensures { result ≡ plain s.now }
{
    match s {
        [] => false,
        [_] => true,
        [first, ..] => *first != b'0',
    }
}

// One or more digits with no needless leading zero.
pub fn read_whole(s: &[u8]) -> Result<u32, Unread>
    ensures { result ≡ whole_held (whole_of s.now) }
{
    if !is_plain(s) {
        return Err(Unread::Malformed);
    }
    let ran = digits(s, 0, 0);
    if ran.next < s.len() {
        return Err(Unread::Malformed);
    }
    if Id::MOST < ran.value {
        return Err(Unread::Beyond);
    }
    Ok(ran.value)
}
