// The open row of profiles.csv: its first fault, and its entry in the table.
ghost use Rattle.std.specs.Prelude.{◌≡◌, cond, ◌&&◌, ◌+◌, ◌*◌, ◌/◌, ◌≤◌, ◌<◌, leb, ltb, length};
ghost use Rattle.std.proofs.lemmas.List.Edits.{sets};
ghost use Rattle.rules.specs.Limits.{most_id, most_profiles, most_sampled, most_samples, profile_width};
ghost use Rattle.rules.specs.Answers.{no_room};
ghost use Rattle.rules.specs.Profiles.{profile_numbers};
ghost use Rattle.profiles_row.specs.Row.{Climbs, Ending, Faults, entered_made};

use rules::answers::Refusal;
use rules::sizes::{Id, Profile, Sample};

// The rows that are closed: how many, how many samples they have, how many ids rise from the first on and the last of these;
// and where the open row starts.
// Kept (no plainer): each number holds at every row; before the first id none rise and the last is 0.
#[derive(Clone, Copy)]
pub struct Past {
    pub place: u32,
    pub profiles: u32,
    pub samples: u32,
    pub rising: u32,
    pub last: u32,
}

// The open row past its id: how many samples are closed, and whether a number is out of range.
// Kept (no plainer): after a number out of range the samples are counted on, so the flag takes nothing away.
#[derive(Clone, Copy)]
pub struct Listed {
    pub id: u32,
    pub count: u32,
    pub wide: bool,
}

// The list after its id.
pub fn list_of(id: u32) -> Listed
    ensures { (result.id ≡ id) × ((result.count ≡ 0) × (result.wide ≡ ltb most_id id)) }
{
    Listed {
        id,
        count: 0,
        wide: Id::MOST < id,
    }
}

// How many ids rise from the first on, and the last of these.
// Kept (no plainer): both numbers hold after every row, as in `Past`.
#[derive(Clone, Copy)]
pub struct Rise {
    pub rising: u32,
    pub last: u32,
}

pub fn climb(past: Past, id: u32) -> Rise
    requires { past.profiles < most_profiles }
    ensures { Climbs past id result }
{
    if past.rising == past.profiles && (past.last < id || past.rising == 0) {
        return Rise {
            rising: past.rising + 1,
            last: id,
        };
    }
    Rise {
        rising: past.rising,
        last: past.last,
    }
}

// The counts keep their limits with this row.
fn counts_fit(past: Past, l: Listed) -> bool
    ensures { result ≡ (ltb past.profiles most_profiles && (leb l.count most_sampled && leb (past.samples + l.count) most_samples)) }
{
    (past.profiles as usize) < Profile::MOST
        && l.count <= Profile::MOST_SAMPLES
        && (past.samples as usize) + (l.count as usize) <= Sample::MOST
}

// Whether the lent room takes this row: its number, or 0.
fn room_fault(past: Past, l: Listed, profiles: usize, samples: usize) -> u8
    ensures { result ≡ cond (ltb past.profiles (profiles / profile_width) && leb (past.samples + l.count) samples) 0 no_room }
{
    if (past.profiles as usize) < profiles / Profile::WIDTH
        && (past.samples as usize) + (l.count as usize) <= samples
    {
        return 0;
    }
    Refusal::ROOM
}

// The number of the row's first fault, or 0.
// Kept (law fault_or): the first fault is a number there, and 0 is none.
pub fn row_fault(past: Past, l: Listed, profiles: &[u32], room: usize) -> u8
    requires { Ending past l profiles.now room }
    ensures { Faults past l profiles.now room result }
{
    if l.wide {
        return Refusal::RANGE;
    }
    if !counts_fit(past, l) {
        return Refusal::COUNT;
    }
    let n = past.profiles as usize;
    let rising = past.rising as usize;
    if !tables_ids::is_new(profiles, Profile::WIDTH, n, rising, past.last, l.id) {
        return Refusal::SEEN;
    }
    room_fault(past, l, profiles.len(), room)
}

// The entry of a profile.
fn enter(profiles: &mut [u32], n: u32, profile: Profile)
    requires { (n + 1) * profile_width ≤ length profiles.old }
    ensures { profiles.new ≡ sets profiles.old (n * profile_width) (profile_numbers profile) }
{
    let at = (n as usize) * Profile::WIDTH;
    profiles[at + Profile::ID_AT] = profile.id;
    profiles[at + Profile::FIRST_AT] = profile.first;
    profiles[at + Profile::COUNT_AT] = profile.count;
}

// A profile out of its limits is not entered; a row that is right has none.
pub fn enter_made(profiles: &mut [u32], n: u32, made: Option<Profile>)
    requires { (n + 1) * profile_width ≤ length profiles.old }
    ensures { profiles.new ≡ entered_made made n profiles.old }
{
    if let Some(profile) = made {
        enter(profiles, n, profile);
    }
}
