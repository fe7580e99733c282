// Reading the flat tables of document 01 record by record. What lies past the end of a table reads as 0, so nothing is asked of a caller. Whatever works on tables that were read does it by these:
// 12 to 15, the verdict, the energies, the merges.
#![tactic(auto)]

ghost use Rattle.std.specs.Prelude.{◌≡◌, ◌<◌};
ghost use Rattle.tables_views.specs.View.{entry_at, leg_at, configuration_at, profile_at, constraint_at, track_at};

use rules::sizes::{Configuration, Constraint, Leg, Profile, Track};

// Number `k` of entry `i`, where an entry has `width` numbers. No product wraps: entries past the end are found by a quotient.
fn entry_at(width: usize, t: &[u32], i: usize, k: usize) -> u32
    requires { 0 < width }
    ensures { result ≡ entry_at width t.now i k }
{
    if t.len() / width < i {
        return 0;
    }
    let start = width * i;
    if k < t.len() - start { t[start + k] } else { 0 }
}

pub fn leg_at(t: &[u32], i: usize) -> Leg
    ensures { result ≡ leg_at t.now i }
{
    Leg {
        id: entry_at(Leg::WIDTH, t, i, Leg::ID_AT),
        train: entry_at(Leg::WIDTH, t, i, Leg::TRAIN_AT),
        track: entry_at(Leg::WIDTH, t, i, Leg::TRACK_AT),
        start: entry_at(Leg::WIDTH, t, i, Leg::START_AT),
        end: entry_at(Leg::WIDTH, t, i, Leg::END_AT),
        first: entry_at(Leg::WIDTH, t, i, Leg::FIRST_AT),
        count: entry_at(Leg::WIDTH, t, i, Leg::COUNT_AT),
        nominal: entry_at(Leg::WIDTH, t, i, Leg::NOMINAL_AT),
    }
}

pub fn configuration_at(t: &[u32], i: usize) -> Configuration
    ensures { result ≡ configuration_at t.now i }
{
    Configuration {
        departure: entry_at(Configuration::WIDTH, t, i, Configuration::DEPARTURE_AT),
        travel: entry_at(Configuration::WIDTH, t, i, Configuration::TRAVEL_AT),
        profile: entry_at(Configuration::WIDTH, t, i, Configuration::PROFILE_AT),
    }
}

pub fn profile_at(t: &[u32], i: usize) -> Profile
    ensures { result ≡ profile_at t.now i }
{
    Profile {
        id: entry_at(Profile::WIDTH, t, i, Profile::ID_AT),
        first: entry_at(Profile::WIDTH, t, i, Profile::FIRST_AT),
        count: entry_at(Profile::WIDTH, t, i, Profile::COUNT_AT),
    }
}

pub fn constraint_at(t: &[u32], i: usize) -> Constraint
    ensures { result ≡ constraint_at t.now i }
{
    Constraint {
        kind: entry_at(Constraint::WIDTH, t, i, Constraint::KIND_AT),
        first: entry_at(Constraint::WIDTH, t, i, Constraint::FIRST_AT),
        second: entry_at(Constraint::WIDTH, t, i, Constraint::SECOND_AT),
        low: entry_at(Constraint::WIDTH, t, i, Constraint::LOW_AT),
        high: entry_at(Constraint::WIDTH, t, i, Constraint::HIGH_AT),
        connection: entry_at(Constraint::WIDTH, t, i, Constraint::CONNECTION_AT),
    }
}

pub fn track_at(t: &[u32], i: usize) -> Track
    ensures { result ≡ track_at t.now i }
{
    Track {
        id: entry_at(Track::WIDTH, t, i, Track::ID_AT),
        subnet: entry_at(Track::WIDTH, t, i, Track::SUBNET_AT),
    }
}
