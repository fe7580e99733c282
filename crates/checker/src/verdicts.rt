// All four files are read, and the solution is judged.
ghost use Rattle.rules.specs.Lent.{given, before, after};
ghost use Rattle.rules.specs.Promises.{Checks};

use rules::outcomes::Checked;
use rules::stated::Stated;
use tables_lent::refusals;

pub fn check(
    stated: Stated,
    timetable: &[u8],
    profiles: &[u8],
    constraints: &[u8],
    solution: &[u8],
    legs: &mut [u32],
    configurations: &mut [u32],
    profile_table: &mut [u32],
    samples: &mut [i32],
    constraint_table: &mut [u32],
    tracks: &mut [u32],
    choices: &mut [u32],
) -> Checked
    ensures { Checks stated (given timetable profiles constraints) solution.now
        (before legs configurations profile_table samples constraint_table tracks) choices.old
        result (after legs configurations profile_table samples constraint_table tracks) choices.new }
{
    let judged = checker_judge::read_and_judge(
        stated,
        timetable,
        profiles,
        constraints,
        solution,
        legs,
        configurations,
        profile_table,
        samples,
        constraint_table,
        tracks,
        choices,
    );
    let answer = judged.answer;
    let tally = judged.tally;
    refusals::empty_tables(
        answer,
        legs,
        configurations,
        profile_table,
        samples,
        constraint_table,
        tracks,
    );
    refusals::empty_choices(answer, choices);
    Checked { answer, tally }
}
