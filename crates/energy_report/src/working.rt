// An accepted solution, worked out of the tables that its texts left.
ghost use Rattle.tables_ids.specs.Column.{Records};
ghost use Rattle.rules.specs.Limits.{profile_width, track_width};
ghost use Rattle.energy_report.specs.Left.{Left, Roomy, Risen, Works, Tests};

use crate::no_report;
use energy_parts::desk;
use energy_parts::runs::{Counts, Entries};
use rules::answers::{Answer, File, Refusal, Tally};
use rules::outcomes::Report;
use rules::sizes::{Profile, Track};

// The counts, with how far the ids of profiles and tracks rise.
fn risen(counts: tables_lent::Counts, profiles: &[u32], tracks: &[u32]) -> Counts
    requires { Records profile_width counts.profiles profiles.now × Records track_width counts.tracks tracks.now }
    ensures { Risen counts profiles.now tracks.now result }
{
    let profiles_rising = tables_ids::rising_of(profiles, Profile::WIDTH, counts.profiles);
    let tracks_rising = tables_ids::rising_of(tracks, Track::WIDTH, counts.tracks);
    Counts {
        legs: counts.legs,
        profiles: Entries {
            count: counts.profiles,
            rising: profiles_rising,
        },
        tracks: Entries {
            count: counts.tracks,
            rising: tracks_rising,
        },
        subnets: counts.subnets,
    }
}

// The curve table has room for them. The tally is the verdict's.
fn work_out(
    h: u32,
    tally: Tally,
    counts: tables_lent::Counts,
    choices: &[u32],
    legs: &[u32],
    profiles: &[u32],
    samples: &[i32],
    tracks: &[u32],
    curves: &mut [i32],
) -> Report
    requires { Roomy h counts choices.now legs.now profiles.now samples.now tracks.now curves.old }
    ensures { Works h tally counts choices.now legs.now profiles.now samples.now tracks.now curves.old result curves.new }
{
    let entries = risen(counts, profiles, tracks);
    let figures = energy_figures::work_out(
        curves, h as usize, entries, choices, legs, profiles, samples, tracks,
    );
    let desk = desk::for_desk(figures);
    Report {
        answer: Answer::Accepted,
        tally,
        figures,
        desk,
    }
}

// "Less room is 16 (file 0, place 0), after acceptance."
pub fn report_accepted(
    h: u32,
    tally: Tally,
    counts: tables_lent::Counts,
    choices: &[u32],
    legs: &[u32],
    profiles: &[u32],
    samples: &[i32],
    tracks: &[u32],
    curves: &mut [i32],
) -> Report
    requires { Left h counts choices.now legs.now profiles.now samples.now tracks.now }
    ensures { Tests h tally counts choices.now legs.now profiles.now samples.now tracks.now curves.old result curves.new }
{
    let subnets = counts.subnets;
    if curves.len() < subnets * (h as usize) {
        let refusal = Refusal::new(Refusal::ROOM, File::NONE, 0);
        return no_report(Answer::Refused(refusal), Tally::none());
    }
    work_out(
        h, tally, counts, choices, legs, profiles, samples, tracks, curves,
    )
}
