// All that does not depend on a solution, in document 01's order: what is stated; timetable; profiles; 12 and 13; constraints; 15. Every entry that judges begins with it.
#![tactic(auto)]

ghost use Rattle.rules.specs.Lent.{given, before, after};
ghost use Rattle.files.specs.Promise.{FilesRead};

use rules::answers::Refusal;
use rules::stated::Stated;
use tables_lent::Counts;

pub mod parts; // the draft; profiles, 12 and 13; constraints, 15

pub fn read_files(
    stated: Stated,
    timetable: &[u8],
    profiles: &[u8],
    constraints: &[u8],
    legs: &mut [u32],
    configurations: &mut [u32],
    profile_table: &mut [u32],
    samples: &mut [i32],
    constraint_table: &mut [u32],
    tracks: &mut [u32],
) -> Result<Counts, Refusal>
    ensures { FilesRead stated (given timetable profiles constraints)
        (before legs configurations profile_table samples constraint_table tracks)
        result (after legs configurations profile_table samples constraint_table tracks) }
{
    let draft = parts::read_draft(stated, timetable, legs, configurations);
    let Ok(drafted) = draft else {
        return draft;
    };
    let power = parts::read_powers(
        drafted,
        timetable,
        profiles,
        legs,
        configurations,
        profile_table,
        samples,
    );
    let Ok(powered) = power else {
        return power;
    };
    parts::read_rules(
        stated,
        powered,
        timetable,
        constraints,
        legs,
        constraint_table,
        tracks,
    )
}
