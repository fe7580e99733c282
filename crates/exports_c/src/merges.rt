// The two merges for C.
ghost use Rattle.rules.specs.Stated as law;
ghost use Rattle.rules.specs.Lent.{given, before, after};
ghost use Rattle.rules.specs.Promises.{Merges};
ghost use Rattle.rules.specs.declared.outcomes.Direction.TheVariants.{Earlier, Later};
ghost use Rattle.exports_numbers.specs.Numbers.{merge_numbers};
ghost use Rattle.exports_numbers.specs.Exported.{Exported};

use exports::merges;
use exports_numbers::Numbers;

#[unsafe(no_mangle)]
pub extern "C" fn wagontulip_merge_earlier(
    h: u32,
    edition: u32,
    timetable: &[u8],
    profiles: &[u8],
    constraints: &[u8],
    first: &[u8],
    second: &[u8],
    legs: &mut [u32],
    configurations: &mut [u32],
    profile_table: &mut [u32],
    samples: &mut [i32],
    constraint_table: &mut [u32],
    tracks: &mut [u32],
    choices: &mut [u32],
    second_choices: &mut [u32],
    text: &mut [u8],
    answer: &mut Numbers,
)
    ensures { Exported (λ r. Merges Earlier (law.stated h edition) (given timetable profiles constraints) first.now second.now
        (before legs configurations profile_table samples constraint_table tracks) choices.old second_choices.old text.old
        r (after legs configurations profile_table samples constraint_table tracks) choices.new second_choices.new text.new) merge_numbers answer.new }
{
    merges::wagontulip_merge_earlier(
        h,
        edition,
        timetable,
        profiles,
        constraints,
        first,
        second,
        legs,
        configurations,
        profile_table,
        samples,
        constraint_table,
        tracks,
        choices,
        second_choices,
        text,
        answer,
    );
}

#[unsafe(no_mangle)]
pub extern "C" fn wagontulip_merge_later(
    h: u32,
    edition: u32,
    timetable: &[u8],
    profiles: &[u8],
    constraints: &[u8],
    first: &[u8],
    second: &[u8],
    legs: &mut [u32],
    configurations: &mut [u32],
    profile_table: &mut [u32],
    samples: &mut [i32],
    constraint_table: &mut [u32],
    tracks: &mut [u32],
    choices: &mut [u32],
    second_choices: &mut [u32],
    text: &mut [u8],
    answer: &mut Numbers,
)
    ensures { Exported (λ r. Merges Later (law.stated h edition) (given timetable profiles constraints) first.now second.now
        (before legs configurations profile_table samples constraint_table tracks) choices.old second_choices.old text.old
        r (after legs configurations profile_table samples constraint_table tracks) choices.new second_choices.new text.new) merge_numbers answer.new }
{
    merges::wagontulip_merge_later(
        h,
        edition,
        timetable,
        profiles,
        constraints,
        first,
        second,
        legs,
        configurations,
        profile_table,
        samples,
        constraint_table,
        tracks,
        choices,
        second_choices,
        text,
        answer,
    );
}
