// The curve table over a window of seconds, made in place: zeros, and then each leg's samples added once.
ghost use Rattle.std.specs.Prelude.{◌≡◌, ◌+◌, ◌*◌, ◌≤◌, ◌<◌, length};
ghost use Rattle.rules.specs.Lists.{over};
ghost use Rattle.energy_figures.specs.Given.{given, curves_seen, Readable};
ghost use Rattle.energy_figures.specs.Legs.{Laying, laid_leg, laid_legs};

use energy_curves::windows;
use energy_curves::windows::Window;
use energy_parts::runs;
use energy_parts::runs::Counts;

// Leg `i`.
fn lay_leg(
    table: &mut [i32],
    h: usize,
    w: Window,
    i: usize,
    counts: Counts,
    choices: &[u32],
    legs: &[u32],
    profiles: &[u32],
    samples: &[i32],
    tracks: &[u32],
)
    requires { Laying h w.from w.size (given counts choices.now legs.now profiles.now samples.now tracks.now) i table.old × (i < counts.legs) }
    ensures { table.new ≡ laid_leg w.from w.size (given counts choices.now legs.now profiles.now samples.now tracks.now) i table.old }
{
    let choice = tables_views::configuration_at(choices, i);
    let leg = tables_views::leg_at(legs, i);
    let home = runs::home_of(tracks, counts.tracks, leg.track);
    let profile = runs::profile_of(profiles, counts.profiles, choice.profile);
    let first = profile.first as usize;
    let last = first + profile.count as usize;
    windows::lay_home(
        table,
        w,
        counts.subnets,
        home,
        choice.departure as usize,
        &samples[first..last],
    );
}

// All legs, into a table of zeros.
fn lay_legs(
    table: &mut [i32],
    h: usize,
    w: Window,
    counts: Counts,
    choices: &[u32],
    legs: &[u32],
    profiles: &[u32],
    samples: &[i32],
    tracks: &[u32],
)
    requires { Laying h w.from w.size (given counts choices.now legs.now profiles.now samples.now tracks.now) 0 table.old }
    ensures { table.new ≡ laid_legs w.from w.size (given counts choices.now legs.now profiles.now samples.now tracks.now) table.old }
{
    for i in 0..counts.legs {
        lay_leg(
            table, h, w, i, counts, choices, legs, profiles, samples, tracks,
        );
    }
}

// A table of just the curves' size.
fn lay_whole(
    table: &mut [i32],
    h: usize,
    w: Window,
    counts: Counts,
    choices: &[u32],
    legs: &[u32],
    profiles: &[u32],
    samples: &[i32],
    tracks: &[u32],
)
    requires { Readable h (given counts choices.now legs.now profiles.now samples.now tracks.now) × (w.from + w.size ≤ h) × (length table.old ≡ counts.subnets * w.size) }
    ensures { table.new ≡ curves_seen w.from w.size (given counts choices.now legs.now profiles.now samples.now tracks.now) }
{
    windows::clear(table);
    lay_legs(
        table, h, w, counts, choices, legs, profiles, samples, tracks,
    );
}

// The curves over a window of seconds, subnet by subnet, at the front of the table.
pub fn lay(
    curves: &mut [i32],
    h: usize,
    w: Window,
    counts: Counts,
    choices: &[u32],
    legs: &[u32],
    profiles: &[u32],
    samples: &[i32],
    tracks: &[u32],
)
    requires { Readable h (given counts choices.now legs.now profiles.now samples.now tracks.now) × (w.from + w.size ≤ h) × (counts.subnets * w.size ≤ length curves.old) }
    ensures { curves.new ≡ over (curves_seen w.from w.size (given counts choices.now legs.now profiles.now samples.now tracks.now)) curves.old }
{
    let whole = counts.subnets * w.size;
    lay_whole(
        &mut curves[..whole],
        h,
        w,
        counts,
        choices,
        legs,
        profiles,
        samples,
        tracks,
    );
}
