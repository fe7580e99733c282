// `energy` for C.
ghost use Rattle.rules.specs.Stated as law;
ghost use Rattle.rules.specs.Lent.{given, before, after};
ghost use Rattle.rules.specs.Promises.{Reports};
ghost use Rattle.exports_numbers.specs.Numbers.{report_numbers};
ghost use Rattle.exports_numbers.specs.Exported.{Exported};

use exports::energies;
use exports_numbers::Numbers;

#[unsafe(no_mangle)]
pub extern "C" fn wagontulip_energy(
    h: u32,
    edition: u32,
    timetable: &[u8],
    profiles: &[u8],
    constraints: &[u8],
    solution: &[u8],
    legs: &mut [u32],
    configurations: &mut [u32],
    profile_table: &mut [u32],
    samples: &mut [i32],
    constraint_table: &mut [u32],
    tracks: &mut [u32],
    choices: &mut [u32],
    curves: &mut [i32],
    answer: &mut Numbers,
)
    ensures { Exported (λ r. Reports (law.stated h edition) (given timetable profiles constraints) solution.now
        (before legs configurations profile_table samples constraint_table tracks) choices.old curves.old
        r (after legs configurations profile_table samples constraint_table tracks) choices.new curves.new) report_numbers answer.new }
{
    energies::wagontulip_energy(
        h,
        edition,
        timetable,
        profiles,
        constraints,
        solution,
        legs,
        configurations,
        profile_table,
        samples,
        constraint_table,
        tracks,
        choices,
        curves,
        answer,
    );
}
