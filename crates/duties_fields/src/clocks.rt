// Times of the day as texts.
ghost use Rattle.std.specs.Prelude.{◌≡◌, ◌+◌, ◌%◌, ◌<◌};
ghost use Rattle.rules.specs.Bytes.{digit_zero};
ghost use Rattle.rules.specs.Limits.{day_seconds};
ghost use Rattle.rules.specs.Lists.{same_list};
ghost use Rattle.rules.specs.Duties.{clock};
ghost use Rattle.duties_fields.specs.Fields.{time_is};

use rules::sizes::{Clock, Event};
use text_read::words;

// `HH:MM:SS` has so many bytes.
const CLOCK: usize = 8;

// What stands before a time from the second day on: `Nd `.
const PREFIX: usize = 3;

// The last digit of a number.
fn digit(n: u32) -> u8
    ensures { result ≡ digit_zero + n % 10 }
{
    (n % 10) as u8 + b'0'
}

// `HH:MM:SS`.
fn is_clock(s: &[u8], seconds: u32) -> bool
    requires { seconds < day_seconds }
    ensures { result ≡ same_list (clock seconds) s.now }
{
    let hours = seconds / Clock::HOUR;
    let minutes = seconds / Clock::MINUTE % Clock::MINUTE;
    let rest = seconds % Clock::MINUTE;
    let h = digit(hours / 10);
    let m = digit(minutes / 10);
    let t = digit(rest / 10);
    let h1 = digit(hours);
    let m1 = digit(minutes);
    let t1 = digit(rest);
    let text: [u8; CLOCK] = [h, h1, b':', m, m1, b':', t, t1];
    words::spells(s, &text)
}

// The seconds are within ten days, and the text is theirs: `HH:MM:SS`, from the second day on with `Nd ` before it.
#[tactic(auto, using(crate::proofs::Times::time_first))]
pub fn matches_time(s: &[u8], seconds: u32) -> bool
    ensures { result ≡ time_is seconds s.now }
{
    if Event::MOST_TIME < seconds {
        return false;
    }
    if seconds < Clock::DAY {
        return is_clock(s, seconds);
    }
    if s.len() < PREFIX {
        return false;
    }
    let d = digit(seconds / Clock::DAY);
    let before: [u8; PREFIX] = [d, b'd', b' '];
    words::spells(&s[..PREFIX], &before) && is_clock(&s[PREFIX..], seconds % Clock::DAY)
}
