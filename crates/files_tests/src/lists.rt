// 12 and 13: the first row of a timetable that names a profile which is not there, or one whose samples are not as many as its travel time.
ghost use Rattle.std.specs.Prelude.{◌≡◌, ◌+◌, ◌*◌, ◌≤◌, ◌<◌, length};
ghost use Rattle.rules.specs.Limits.{profile_width, configuration_width};
ghost use Rattle.tables_ids.specs.Column.{Records, Rising};
ghost use Rattle.tables_views.specs.View.{profile_at, configuration_at, list_in};
ghost use Rattle.files_tests.specs.Counts.{count_at, list_at, list_fault, Sees, InTables, Tables, FirstFault};

use rules::answers::Refusal;
use rules::sizes::{Configuration, Leg, Profile};

// Entries are read where they are known to stand, and nothing is tested: `tables_views` reads them anywhere.
fn count_at(profiles: &[u32], i: usize) -> u32
    requires { (i + 1) * profile_width ≤ length profiles.now }
    ensures { result ≡ (profile_at profiles.now i).count }
{
    profiles[Profile::WIDTH * i + Profile::COUNT_AT]
}

// How many samples a profile has, where it is there.
#[tactic(auto, using(crate::proofs::Counts::counts))]
fn count_of(profiles: &[u32], m: usize, rising: usize, id: u32) -> Option<u32>
    requires { Rising profile_width m rising profiles.now }
    ensures { result ≡ (count_at profiles.now m id) }
{
    match tables_ids::find(profiles, Profile::WIDTH, m, rising, id) {
        Some(i) => Some(count_at(profiles, i)),
        None => None,
    }
}

// What an entry is tested by.
#[derive(Clone, Copy, PartialEq, Eq)]
pub struct Entry {
    pub travel: u32,
    pub profile: u32,
}

// The entry before, where there is one, and whether an entry so far has a profile of another length. None has a missing one.
#[derive(Clone, Copy)]
pub struct Seen {
    pub before: Option<Entry>,
    pub wrong: bool,
}

// A travel time and a profile that are not those of the entry before are looked up.
fn look(seen: Seen, profiles: &[u32], m: usize, rising: usize, entry: Entry) -> Option<Seen>
    requires { Rising profile_width m rising profiles.now }
    ensures { Sees (count_at profiles.now m) seen entry result }
{
    let count = count_of(profiles, m, rising, entry.profile)?;
    Some(Seen {
        before: Some(entry),
        wrong: seen.wrong || count != entry.travel,
    })
}

// What is seen with an entry more, or None where its profile is missing.
fn see(seen: Seen, profiles: &[u32], m: usize, rising: usize, entry: Entry) -> Option<Seen>
    requires { Rising profile_width m rising profiles.now }
    ensures { Sees (count_at profiles.now m) seen entry result }
{
    if seen.before == Some(entry) {
        return Some(seen);
    }
    look(seen, profiles, m, rising, entry)
}

fn configuration_at(configurations: &[u32], j: usize) -> Configuration
    requires { (j + 1) * configuration_width ≤ length configurations.now }
    ensures { result ≡ configuration_at configurations.now j }
{
    let at = Configuration::WIDTH * j;
    Configuration {
        departure: configurations[at + Configuration::DEPARTURE_AT],
        travel: configurations[at + Configuration::TRAVEL_AT],
        profile: configurations[at + Configuration::PROFILE_AT],
    }
}

// The fault of a list: 12 where a profile is missing, else 13 where one has another length.
// An entry with the travel time and the profile of the entry before it has no other fault than that one.
#[tactic(auto, using(crate::proofs::Counts::counts))]
fn list_fault(
    configurations: &[u32],
    first: usize,
    count: usize,
    profiles: &[u32],
    m: usize,
    rising: usize,
) -> Option<u8>
    requires { ((first + count) * configuration_width ≤ length configurations.now) × Rising profile_width m rising profiles.now }
    ensures { result ≡ (list_fault (count_at profiles.now m) (list_at (configuration_at configurations.now) first count)) }
{
    let mut seen = Seen {
        before: None,
        wrong: false,
    };
    for k in 0..count {
        let c = configuration_at(configurations, first + k);
        let entry = Entry {
            travel: c.travel,
            profile: c.profile,
        };
        let Some(next) = see(seen, profiles, m, rising, entry) else {
            return Some(Refusal::NOT_THERE);
        };
        seen = next;
    }
    if seen.wrong {
        return Some(Refusal::SAMPLES);
    }
    None
}

// The fault of row i's list.
fn leg_fault(
    legs: &[u32],
    i: usize,
    configurations: &[u32],
    profiles: &[u32],
    m: usize,
    rising: usize,
) -> Option<u8>
    requires { InTables legs.now configurations.now i × Rising profile_width m rising profiles.now }
    ensures { result ≡ (list_fault (count_at profiles.now m) (list_in legs.now configurations.now i)) }
{
    let at = Leg::WIDTH * i;
    let first = legs[at + Leg::FIRST_AT] as usize;
    let count = legs[at + Leg::COUNT_AT] as usize;
    list_fault(configurations, first, count, profiles, m, rising)
}

// A row at fault, with 12 or 13.
#[derive(Clone, Copy)]
pub struct Fault {
    pub row: usize,
    pub number: u8,
}

// For tables that hold rows and profiles, it is the first of these rows at fault.
#[tactic(auto, using(crate::proofs::Holding::holding))]
pub fn profile_fault(
    legs: &[u32],
    n: usize,
    configurations: &[u32],
    profiles: &[u32],
    m: usize,
) -> Option<Fault>
    requires { Tables legs.now n configurations.now × Records profile_width m profiles.now }
    ensures { FirstFault legs.now n configurations.now profiles.now m result }
{
    let rising = tables_ids::rising_of(profiles, Profile::WIDTH, m);
    for row in 0..n {
        if let Some(number) = leg_fault(legs, row, configurations, profiles, m, rising) {
            return Some(Fault { row, number });
        }
    }
    None
}
