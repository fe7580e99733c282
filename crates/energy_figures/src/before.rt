// Before recuperation: all positive chosen samples, leg by leg, and the quarters that they fall into.
ghost use Rattle.std.specs.Prelude.{◌≡◌, ◌+◌, ◌<◌};
ghost use Rattle.energy_figures.specs.Given as tables;
ghost use Rattle.energy_figures.specs.Before.{Summing, before_sums};

use energy_parts::runs::Counts;
use energy_parts::{quarters, runs, sides};
use rules::sizes::Horizon;

// In kilojoules.
#[derive(Clone, Copy)]
pub struct Before {
    pub whole: u64,
    pub quarters: [i64; Horizon::QUARTERS],
}

// Leg `i`, after those before it.
fn add_leg(
    sum: Before,
    h: usize,
    i: usize,
    counts: Counts,
    choices: &[u32],
    profiles: &[u32],
    samples: &[i32],
) -> Before
    requires { Summing h (tables.runs counts choices.now profiles.now samples.now) i sum × (i < counts.legs) }
    ensures { result ≡ before_sums h (tables.runs counts choices.now profiles.now samples.now) (i + 1) }
{
    let choice = tables_views::configuration_at(choices, i);
    let profile = runs::profile_of(profiles, counts.profiles, choice.profile);
    let first = profile.first as usize;
    let last = first + profile.count as usize;
    let run = &samples[first..last];
    let whole = sum.whole + sides::sides_of(run).above;
    let quarters = quarters::add_run(sum.quarters, run, choice.departure as usize);
    Before { whole, quarters }
}

// All legs.
pub fn add_legs(
    h: usize,
    counts: Counts,
    choices: &[u32],
    profiles: &[u32],
    samples: &[i32],
) -> Before
    requires { tables.ReadableRuns h (tables.runs counts choices.now profiles.now samples.now) }
    ensures { result ≡ before_sums h (tables.runs counts choices.now profiles.now samples.now) counts.legs }
{
    let quarters = [0i64; Horizon::QUARTERS];
    let mut sum = Before { whole: 0, quarters };
    for i in 0..counts.legs {
        let more = add_leg(sum, h, i, counts, choices, profiles, samples);
        sum = more;
    }
    sum
}
