// Times: seconds after midnight, and the same as a clock that goes on past 24 hours.
ghost use Rattle.std.specs.Prelude.{◌≡◌};
ghost use Rattle.text_write.specs.Written.{Written};
ghost use Rattle.say_words.specs.Times.{clock_of, time_of, quarter_end, quarter_of};

use crate::numbers;
use rules::sizes::Horizon;

const MINUTE: u64 = 60;

const HOUR: u64 = 60 * MINUTE;

// `25:14:10`.
pub fn put_clock(buffer: &mut [u8], at: usize, seconds: u64) -> usize
    ensures { Written buffer.old at (clock_of seconds) buffer.new result }
{
    let hours = numbers::put_two(buffer, at, seconds / HOUR);
    let minutes = text_write::put_byte(buffer, hours, b':');
    let colon = numbers::put_two(buffer, minutes, seconds / MINUTE % MINUTE);
    let last = text_write::put_byte(buffer, colon, b':');
    numbers::put_two(buffer, last, seconds % MINUTE)
}

// Every time of every message is written so: `90850 s (25:14:10)`.
pub fn put_time(buffer: &mut [u8], at: usize, seconds: u64) -> usize
    ensures { Written buffer.old at (time_of seconds) buffer.new result }
{
    let unit = numbers::put_whole(buffer, at, seconds);
    let clock = text_write::put_bytes(buffer, unit, b" s (");
    let end = put_clock(buffer, clock, seconds);
    text_write::put_byte(buffer, end, b')')
}

// The first second after a quarter hour within H: H itself where it cuts the quarter.
fn quarter_end(h: u32, quarter: u32) -> u64
    ensures { result ≡ quarter_end h quarter }
{
    let horizon = h as u64;
    let whole = Horizon::QUARTER as u64 * quarter as u64 + Horizon::QUARTER as u64;
    horizon.min(whole)
}

// From when to when a quarter hour within H lasts, counted from 0: `07:15:00 to 07:30:00`.
pub fn put_quarter(buffer: &mut [u8], at: usize, h: u32, quarter: u32) -> usize
    ensures { Written buffer.old at (quarter_of h quarter) buffer.new result }
{
    let to = put_clock(buffer, at, Horizon::QUARTER as u64 * quarter as u64);
    let last = text_write::put_bytes(buffer, to, b" to ");
    let end = quarter_end(h, quarter);
    put_clock(buffer, last, end)
}
