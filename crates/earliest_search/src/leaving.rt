// The way out of the leg table.
ghost use Rattle.std.specs.Prelude.{◌≡◌, ◌+◌, ◌*◌, ◌≤◌, length};
ghost use Rattle.std.proofs.lemmas.List.Edits.{sets};
ghost use Rattle.rules.specs.Limits.{configuration_width, leg_width};
ghost use Rattle.rules.specs.Timetable.{configuration_numbers};
ghost use Rattle.earliest_search.specs.WayOut.{choices_over, Restored};

use rules::sizes::{Configuration, Leg};

fn put_choice(choices: &mut [u32], row: usize, c: Configuration)
    requires { row * configuration_width + configuration_width ≤ length choices.old }
    ensures { choices.new ≡ sets choices.old (row * configuration_width) (configuration_numbers c) }
{
    let from = row * Configuration::WIDTH;
    choices[from + Configuration::DEPARTURE_AT] = c.departure;
    choices[from + Configuration::TRAVEL_AT] = c.travel;
    choices[from + Configuration::PROFILE_AT] = c.profile;
}

// The choices of `n` rows, into their own table.
pub fn unpack_choices(legs: &[u32], n: usize, configurations: &[u32], choices: &mut [u32])
    requires { n * configuration_width ≤ length choices.old }
    ensures { choices.new ≡ choices_over n legs.now configurations.now choices.old }
{
    for i in 0..n {
        let c = earliest_offer::chosen_at(legs, configurations, i);
        put_choice(choices, i, c);
    }
}

// The places of the nominals alone, as they were read.
pub fn restore(legs: &mut [u32], n: usize)
    requires { leg_width * n ≤ length legs.old }
    ensures { Restored n legs.old legs.new }
{
    for i in 0..n {
        let at = Leg::WIDTH * i + Leg::NOMINAL_AT;
        legs[at] = legs[at] % Leg::MOST_CONFIGURATIONS;
    }
}
