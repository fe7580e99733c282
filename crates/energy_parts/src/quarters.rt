// Quarter hours: quarter k covers the seconds 900 k to 900 k + 899; the last may be shorter, and counts.
// The 196 quarter sums are carried through as one array.
ghost use Rattle.std.specs.Prelude.{◌≡◌, ◌≤◌, ◌<◌, length};
ghost use Rattle.rules.specs.Limits.{most_quarters, most_horizon};
ghost use Rattle.energy_parts.specs.Quarters.{quarters_before, quarter_taken, with_run, higher_of, greatest_sum, RunRoom};

use crate::{runs, sides};
use rules::figures::Peak;
use rules::sizes::Horizon;

// What a run's powers, the first of which falls on second `start`, draw in quarter `k`.
fn in_quarter(run: &[i32], start: usize, k: usize) -> u64
    requires { (k < most_quarters) × (length run.now ≤ most_horizon) }
    ensures { result ≡ quarter_taken start run.now k }
{
    let from = k * Horizon::QUARTER as usize;
    let to = from + Horizon::QUARTER as usize;
    let first = runs::samples_before(from, start, run.len());
    let last = runs::samples_before(to, start, run.len());
    let taken = sides::sides_of(&run[first..last]);
    taken.above
}

// How many quarters begin before a second.
fn quarters_before(second: usize) -> usize
    requires { second ≤ most_horizon }
    ensures { result ≡ quarters_before second }
{
    second.div_ceil(Horizon::QUARTER as usize)
}

// The sums with what a run draws added: a leg's samples, or a subnet's powers.
pub fn add_run(
    sums: [i64; Horizon::QUARTERS],
    run: &[i32],
    start: usize,
) -> [i64; Horizon::QUARTERS]
    requires { RunRoom start run.now sums }
    ensures { result ≡ with_run start run.now sums }
{
    let mut out = sums;
    let first = start / Horizon::QUARTER as usize;
    let last = quarters_before(start + run.len());
    for k in first..last {
        let more = in_quarter(run, start, k);
        out[k] += more as i64;
    }
    out
}

// The greatest sum so far, and that of quarter `k`.
fn higher(best: Peak, kj: u64, k: u32) -> Peak
    ensures { result ≡ higher_of best kj k }
{
    if best.kj < kj {
        Peak { kj, quarter: k }
    } else {
        best
    }
}

// The peak quarter.
pub fn greatest_of(sums: [i64; Horizon::QUARTERS]) -> Peak
    ensures { result ≡ greatest_sum sums }
{
    let mut best = Peak { kj: 0, quarter: 0 };
    for (k, &sum) in sums.iter().enumerate() {
        best = higher(best, energy_sign::above(sum), k as u32);
    }
    best
}
