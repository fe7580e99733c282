// A merge as a whole (document 01, "Merged texts"): both solutions are read, then judged, and the earlier or the later choices are written as a timetable. The entry `merge` is made of it.
#![tactic(auto)]

ghost use Rattle.std.specs.Prelude.{◌≡◌};
ghost use Rattle.rules.specs.Lent.{given, before, after};
ghost use Rattle.merge.specs.Left.{not_written};
ghost use Rattle.merge.specs.Promise.{MergeRead};

use rules::answers::{Answer, Tally};
use rules::outcomes::{Direction, Merged};
use rules::stated::Stated;
use tables_lent::Counts;

pub mod writing; // the text, 17, 16
pub mod judging; // the solutions, and their verdicts

// Short of acceptance no byte is written; a refusal counts nothing.
pub fn not_written(answer: Answer) -> Merged
    ensures { result ≡ not_written answer }
{
    let tally = Tally::none();
    Merged {
        answer,
        tally,
        length: 0,
    }
}

// The files, both solutions, and the merge. The entry calls this, and then fills what its answer leaves open.
pub fn read_and_merge(
    direction: Direction,
    stated: Stated,
    timetable: &[u8],
    profiles: &[u8],
    constraints: &[u8],
    first: &[u8],
    second: &[u8],
    legs: &mut [u32],
    configurations: &mut [u32],
    profile_table: &mut [u32],
    samples: &mut [i32],
    constraint_table: &mut [u32],
    tracks: &mut [u32],
    choices: &mut [u32],
    second_choices: &mut [u32],
    text: &mut [u8],
) -> Merged
    ensures { MergeRead direction stated (given timetable profiles constraints) first.now second.now
        (before legs configurations profile_table samples constraint_table tracks) choices.old second_choices.old text.old
        result (after legs configurations profile_table samples constraint_table tracks) choices.new second_choices.new text.new }
{
    match files::read_files(
        stated,
        timetable,
        profiles,
        constraints,
        legs,
        configurations,
        profile_table,
        samples,
        constraint_table,
        tracks,
    ) {
        Err(refusal) => not_written(Answer::Refused(refusal)),
        Ok(counts) => judging::merge_solutions(
            stated.horizon,
            direction,
            counts,
            first,
            second,
            legs,
            configurations,
            constraint_table,
            choices,
            second_choices,
            text,
        ),
    }
}
