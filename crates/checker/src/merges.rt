// Both solutions are read, then judged, and the earlier or the later choices are written as a timetable (document 01, "Merged texts").
ghost use Rattle.rules.specs.Lent.{given, before, after};
ghost use Rattle.rules.specs.Promises.{Merges};

use rules::outcomes::{Direction, Merged};
use rules::stated::Stated;
use tables_lent::{acceptance, refusals};

// At equal departures the earlier merge takes the first file's choice, and the later the second's. C, which has no `Direction`, has a name for each.
pub fn merge(
    direction: Direction,
    stated: Stated,
    timetable: &[u8],
    profiles: &[u8],
    constraints: &[u8],
    first: &[u8],
    second: &[u8],
    legs: &mut [u32],
    configurations: &mut [u32],
    profile_table: &mut [u32],
    samples: &mut [i32],
    constraint_table: &mut [u32],
    tracks: &mut [u32],
    choices: &mut [u32],
    second_choices: &mut [u32],
    text: &mut [u8],
) -> Merged
    ensures { Merges direction stated (given timetable profiles constraints) first.now second.now
        (before legs configurations profile_table samples constraint_table tracks) choices.old second_choices.old text.old
        result (after legs configurations profile_table samples constraint_table tracks) choices.new second_choices.new text.new }
{
    let merged = merge::read_and_merge(
        direction,
        stated,
        timetable,
        profiles,
        constraints,
        first,
        second,
        legs,
        configurations,
        profile_table,
        samples,
        constraint_table,
        tracks,
        choices,
        second_choices,
        text,
    );
    let answer = merged.answer;
    refusals::empty_tables(
        answer,
        legs,
        configurations,
        profile_table,
        samples,
        constraint_table,
        tracks,
    );
    refusals::empty_choices(answer, choices);
    refusals::empty_choices(answer, second_choices);
    acceptance::empty_text(answer, text);
    merged
}
