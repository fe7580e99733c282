// A leg's offers, as the search for the earliest timetable asks for them: the soonest at a second or after it, the one that is chosen, and the leg moved on to its next.
// The search lends no table of its own: while it runs, a leg's last number holds the place of its choice beside that of its nominal, so that 19 is found however short the choice table is.
#![tactic(auto)]

ghost use Rattle.std.specs.Prelude.{◌≡◌, ◌<◌, ◌≤◌, ◌↔◌, length, set, IsTrue, MatchOption};
ghost use Rattle.earliest_offer.specs.Offer.{Sought, last_at, chosen_of, chosen_at, Raisable, Raised};

use rules::sizes::{Configuration, Leg};

// An offer that is the soonest of those looked at.
#[derive(Clone, Copy)]
pub struct Best {
    pub place: usize,
    pub departure: u32,
}

// Of equal departures the one looked at last is taken.
fn is_sooner(departure: u32, best: Option<Best>) -> bool
    ensures { MatchOption best (IsTrue result) (λ b. IsTrue result ↔ (departure ≤ b.departure)) }
{
    best.is_none_or(|b| departure <= b.departure)
}

// The place in its list of a leg's soonest offer with a travel time, at second `least` or after it, where there is one.
// The list is walked from its end, so that of equal departures the first listed stays.
pub fn soonest_of(configurations: &[u32], leg: Leg, travel: u32, least: u32) -> Option<usize>
    ensures { Sought configurations.now leg travel least result }
{
    let first = leg.first as usize;
    let count = leg.count as usize;
    let mut best: Option<Best> = None;
    for place in (0..count).rev() {
        let offer = tables_views::configuration_at(configurations, first + place);
        let departure = offer.departure;
        if offer.travel == travel && least <= departure && is_sooner(departure, best) {
            best = Some(Best { place, departure });
        }
    }
    Some(best?.place)
}

// The choice of a leg: its last number has the place above that of the nominal.
pub fn chosen_of(configurations: &[u32], leg: Leg) -> Configuration
    ensures { result ≡ chosen_of configurations.now leg }
{
    let place = leg.nominal / Leg::MOST_CONFIGURATIONS;
    tables_views::configuration_at(configurations, leg.first as usize + place as usize)
}

// The choice of a row.
pub fn chosen_at(legs: &[u32], configurations: &[u32], row: usize) -> Configuration
    ensures { result ≡ chosen_at legs.now configurations.now row }
{
    let leg = tables_views::leg_at(legs, row);
    chosen_of(configurations, leg)
}

// The last number of a leg's entry.
pub fn put_last(legs: &mut [u32], row: usize, number: u32)
    requires { last_at row < length legs.old }
    ensures { legs.new ≡ set legs.old (last_at row) number }
{
    legs[Leg::WIDTH * row + Leg::NOMINAL_AT] = number;
}

// A row moved on to the soonest offer that leaves `by` seconds later or after that. False where there is none, and then the table is as it was.
pub fn raise(legs: &mut [u32], configurations: &[u32], row: usize, by: u32) -> bool
    requires { Raisable legs.old configurations.now row by }
    ensures { Raised legs.old configurations.now row by result legs.new }
{
    let leg = tables_views::leg_at(legs, row);
    let present = chosen_of(configurations, leg);
    let least = present.departure + by;
    let Some(place) = soonest_of(configurations, leg, present.travel, least) else {
        return false;
    };
    let most = Leg::MOST_CONFIGURATIONS;
    put_last(legs, row, leg.nominal % most + most * place as u32);
    true
}
