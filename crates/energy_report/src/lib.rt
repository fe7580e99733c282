// The whole of an energy report but the filling: files, a solution, its verdict, and figures for an accepted one alone. The entry `energy` is made of it.
#![tactic(auto)]

ghost use Rattle.std.specs.Prelude.{◌≡◌};
ghost use Rattle.rules.specs.Lent.{given, before, after};
ghost use Rattle.energy_report.specs.Promise.{no_report, ReportRead};

use energy_parts::desk;
use rules::answers::{Answer, Tally};
use rules::figures::{Figures, Peak, Peaks};
use rules::outcomes::Report;
use rules::stated::Stated;
use tables_lent::acceptance;

pub mod working; // an accepted solution

// Short of acceptance all figures are 0.
pub fn no_report(answer: Answer, tally: Tally) -> Report
    ensures { result ≡ no_report answer tally }
{
    let figures = Figures {
        before: 0,
        drawn: 0,
        lost: 0,
        fluctuation: 0,
        peaks: Peaks {
            before: Peak { kj: 0, quarter: 0 },
            drawn: Peak { kj: 0, quarter: 0 },
        },
    };
    let desk = desk::for_desk(figures);
    Report {
        answer,
        tally,
        figures,
        desk,
    }
}

// The files, a solution and its verdict; and its energies, where it is accepted.
pub fn read_and_report(
    stated: Stated,
    timetable: &[u8],
    profiles: &[u8],
    constraints: &[u8],
    solution: &[u8],
    legs: &mut [u32],
    configurations: &mut [u32],
    profile_table: &mut [u32],
    samples: &mut [i32],
    constraint_table: &mut [u32],
    tracks: &mut [u32],
    choices: &mut [u32],
    curves: &mut [i32],
) -> Report
    ensures { ReportRead stated (given timetable profiles constraints) solution.now
        (before legs configurations profile_table samples constraint_table tracks) choices.old curves.old
        result (after legs configurations profile_table samples constraint_table tracks) choices.new curves.new }
{
    let judged = checker_judge::read_and_judge(
        stated,
        timetable,
        profiles,
        constraints,
        solution,
        legs,
        configurations,
        profile_table,
        samples,
        constraint_table,
        tracks,
        choices,
    );
    let answer = judged.answer;
    let tally = judged.tally;
    if acceptance::is_accepted(answer) {
        let counts = judged.counts.unwrap();
        return working::report_accepted(
            stated.horizon,
            tally,
            counts,
            choices,
            legs,
            profile_table,
            samples,
            tracks,
            curves,
        );
    }
    no_report(answer, tally)
}
