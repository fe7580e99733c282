// The figures of an accepted solution: its curves, and what is worked out of them. `energy_report` asks for them after acceptance.
#![tactic(auto)]

ghost use Rattle.std.specs.Prelude.{◌≡◌, ◌*◌, ◌≤◌, length};
ghost use Rattle.energy_figures.specs.Given as tables;
ghost use Rattle.energy_curves.specs.Curves.{CurveTable};
ghost use Rattle.energy_figures.specs.Worked.{Worked, figures_in};

use energy_curves::sums;
use energy_curves::windows::Window;
use energy_parts::runs::Counts;
use energy_parts::{quarters, sides};
use rules::figures::{Figures, Peaks};

pub mod before; // before recuperation
pub mod laying; // the curves, each leg's samples added once

// Of the curves of a whole horizon, and of the runs.
fn figures(
    curves: &[i32],
    h: usize,
    counts: Counts,
    choices: &[u32],
    profiles: &[u32],
    samples: &[i32],
) -> Figures
    requires { CurveTable h counts.subnets curves.now × tables.ReadableRuns h (tables.runs counts choices.now profiles.now samples.now) }
    ensures { result ≡ figures_in h (tables.runs counts choices.now profiles.now samples.now) counts.subnets curves.now }
{
    let n = counts.subnets;
    let legs = before::add_legs(h, counts, choices, profiles, samples);
    let subnets = sides::sides_of(curves);
    let subnets_quarters = sums::drawn_quarters(curves, n, h);
    Figures {
        before: legs.whole,
        drawn: subnets.above,
        lost: subnets.below,
        fluctuation: sums::fluctuation(curves, n, h),
        peaks: Peaks {
            before: quarters::greatest_of(legs.quarters),
            drawn: quarters::greatest_of(subnets_quarters),
        },
    }
}

// The figures of an accepted solution, and its curves at the front of the lent table: subnet by subnet, `h` numbers each.
pub fn work_out(
    curves: &mut [i32],
    h: usize,
    counts: Counts,
    choices: &[u32],
    legs: &[u32],
    profiles: &[u32],
    samples: &[i32],
    tracks: &[u32],
) -> Figures
    requires { tables.Readable h (tables.given counts choices.now legs.now profiles.now samples.now tracks.now) × (counts.subnets * h ≤ length curves.old) }
    ensures { Worked h (tables.given counts choices.now legs.now profiles.now samples.now tracks.now) result curves.old curves.new }
{
    let day = Window { from: 0, size: h };
    laying::lay(
        curves, h, day, counts, choices, legs, profiles, samples, tracks,
    );
    let whole = counts.subnets * h;
    figures(&curves[..whole], h, counts, choices, profiles, samples)
}
