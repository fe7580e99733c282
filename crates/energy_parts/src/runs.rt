// What a leg's choice and track lead to in the tables: its samples, and its subnet.
ghost use Rattle.std.specs.Prelude.{◌≡◌, ◌-◌, min};
ghost use Rattle.rules.specs.Limits.{profile_width, track_width};
ghost use Rattle.rules.specs.Constraints.{subnet_of};
ghost use Rattle.tables_views.specs.View.{tracks_in};
ghost use Rattle.tables_ids.specs.Column.{Rising};
ghost use Rattle.energy_parts.specs.Seen.{profile_seen};

use rules::sizes::{Profile, Track};

// How many entries a table has, and how many of them, from the first on, have rising ids.
#[derive(Clone, Copy)]
pub struct Entries {
    pub count: usize,
    pub rising: usize,
}

// What a reading leaves in the tables.
#[derive(Clone, Copy)]
pub struct Counts {
    pub legs: usize,
    pub profiles: Entries,
    pub tracks: Entries,
    pub subnets: usize,
}

// The profile with an id. Where there is none, one of no samples.
pub fn profile_of(profiles: &[u32], n: Entries, id: u32) -> Profile
    requires { Rising profile_width n.count n.rising profiles.now }
    ensures { result ≡ profile_seen n.count profiles.now id }
{
    match tables_ids::find(profiles, Profile::WIDTH, n.count, n.rising, id) {
        Some(i) => tables_views::profile_at(profiles, i),
        None => Profile {
            id: 0,
            first: 0,
            count: 0,
        },
    }
}

// The subnet that a track is in.
pub fn home_of(tracks: &[u32], n: Entries, track: u32) -> Option<usize>
    requires { Rising track_width n.count n.rising tracks.now }
    ensures { result ≡ (subnet_of (tracks_in n.count tracks.now) track) }
{
    match tables_ids::find(tracks, Track::WIDTH, n.count, n.rising, track) {
        Some(i) => {
            let t = tables_views::track_at(tracks, i);
            Some(t.subnet as usize)
        }
        None => None,
    }
}

// How many of a run's samples, the first of which falls on second `start`, fall before a second.
pub fn samples_before(second: usize, start: usize, count: usize) -> usize
    ensures { result ≡ min count (second - start) }
{
    second.saturating_sub(start).min(count)
}
