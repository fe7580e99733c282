// `check` for C.
ghost use Rattle.rules.specs.Stated as law;
ghost use Rattle.rules.specs.Lent.{given, before, after};
ghost use Rattle.rules.specs.Promises.{Checks};
ghost use Rattle.exports_numbers.specs.Numbers.{check_numbers};
ghost use Rattle.exports_numbers.specs.Exported.{Exported};

use checker::verdicts;
use exports_numbers::{Numbers, answers};
use rules::stated::Stated;

pub fn wagontulip_check(
    h: u32,
    edition: u32,
    timetable: &[u8],
    profiles: &[u8],
    constraints: &[u8],
    solution: &[u8],
    legs: &mut [u32],
    configurations: &mut [u32],
    profile_table: &mut [u32],
    samples: &mut [i32],
    constraint_table: &mut [u32],
    tracks: &mut [u32],
    choices: &mut [u32],
    answer: &mut Numbers,
)
    ensures { Exported (λ r. Checks (law.stated h edition) (given timetable profiles constraints) solution.now
        (before legs configurations profile_table samples constraint_table tracks) choices.old
        r (after legs configurations profile_table samples constraint_table tracks) choices.new) check_numbers answer.new }
{
    let stated = Stated {
        horizon: h,
        edition,
    };
    let checked = verdicts::check(
        stated,
        timetable,
        profiles,
        constraints,
        solution,
        legs,
        configurations,
        profile_table,
        samples,
        constraint_table,
        tracks,
        choices,
    );
    *answer = answers::of_check(checked);
}
