// All four files are read, the solution is judged, and its energies are worked out where it is accepted.
ghost use Rattle.rules.specs.Lent.{given, before, after};
ghost use Rattle.rules.specs.Promises.{Reports};

use rules::outcomes::Report;
use rules::stated::Stated;
use tables_lent::{acceptance, refusals};

pub fn energy(
    stated: Stated,
    timetable: &[u8],
    profiles: &[u8],
    constraints: &[u8],
    solution: &[u8],
    legs: &mut [u32],
    configurations: &mut [u32],
    profile_table: &mut [u32],
    samples: &mut [i32],
    constraint_table: &mut [u32],
    tracks: &mut [u32],
    choices: &mut [u32],
    curves: &mut [i32],
) -> Report
    ensures { Reports stated (given timetable profiles constraints) solution.now
        (before legs configurations profile_table samples constraint_table tracks) choices.old curves.old
        result (after legs configurations profile_table samples constraint_table tracks) choices.new curves.new }
{
    let report = energy_report::read_and_report(
        stated,
        timetable,
        profiles,
        constraints,
        solution,
        legs,
        configurations,
        profile_table,
        samples,
        constraint_table,
        tracks,
        choices,
        curves,
    );
    let answer = report.answer;
    refusals::empty_tables(
        answer,
        legs,
        configurations,
        profile_table,
        samples,
        constraint_table,
        tracks,
    );
    refusals::empty_choices(answer, choices);
    acceptance::empty_curves(answer, curves);
    report
}
