// A sample in kW, and its place in the table.
ghost use Rattle.std.specs.Prelude.{◌≡◌, suc, ◌*◌, ◌^◌, ◌-◌, ◌≤◌, ◌<◌, min, set};
ghost use Rattle.rules.specs.Limits.{most_text, most_kw};
ghost use Rattle.profiles_row.specs.Sample.{most_digits, kw_a_tenth, kw_of};
ghost use Rattle.profiles_row.specs.Row.{ClosesTo};

use crate::row::{Listed, Past};
use rules::sizes::Sample;

// The open sample past its point: what stands before it, and the digits since.
#[derive(Clone, Copy)]
pub struct Tail {
    pub negative: bool,
    pub whole: u32,
    pub digits: u32,
    pub value: u32,
}

impl Tail {
    // The digits, at most.
    pub const MOST_DIGITS: u32 = 3;

    // A megawatt, a tenth and a hundredth of one, in kW.
    pub const ONE: u64 = 1_000;

    pub const TENTH: u64 = 100;

    pub const HUNDREDTH: u64 = 10;
}

// The digits past the point as thousandths.
fn scaled(digits: u32, value: u32) -> u64
    ensures size { result ≤ value * kw_a_tenth }
    ensures value { 1 ≤ digits → digits ≤ most_digits → result ≡ value * 10 ^ (most_digits - digits) }
{
    if digits == 1 {
        return (value as u64) * Tail::TENTH;
    }
    if digits == 2 {
        return (value as u64) * Tail::HUNDREDTH;
    }
    value as u64
}

// The sample in kW; above the limit all are one.
fn kw_of(whole: u32, digits: u32, value: u32) -> u32
    ensures { 1 ≤ digits → digits ≤ most_digits → result ≡ min (kw_of whole digits value) (suc most_kw) }
{
    let kw = (whole as u64) * Tail::ONE + scaled(digits, value);
    if (Sample::MOST_KW as u64) < kw {
        return Sample::MOST_KW + 1;
    }
    kw as u32
}

// A sample in the table, where it fits.
fn put(samples: &mut [i32], at: usize, kw: i32)
    ensures { samples.new ≡ set samples.old at kw }
{
    if at < samples.len() {
        samples[at] = kw;
    }
}

pub fn close_sample(past: Past, l: Listed, t: Tail, samples: &mut [i32]) -> Listed
    requires { l.count < most_text }
    ensures { ClosesTo past l t samples.old result samples.new }
{
    let count = l.count + 1;
    let at = (past.samples as usize) + (l.count as usize);
    let kw = kw_of(t.whole, t.digits, t.value);
    match Sample::new(t.negative, kw) {
        Some(sample) => {
            put(samples, at, sample.kw);
            Listed {
                id: l.id,
                count,
                wide: l.wide,
            }
        }
        None => Listed {
            id: l.id,
            count,
            wide: true,
        },
    }
}
