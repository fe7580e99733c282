// What a step has for a table goes there and is counted. Each gives back the state with which the walk goes on.
ghost use Rattle.std.specs.Prelude.{◌≡◌, cond, [], ◌∷◌, ◌+◌, ◌-◌, ◌*◌, ◌≤◌, ◌<◌, length, get_or, set};
ghost use Rattle.std.proofs.lemmas.List.Edits.{sets};
ghost use Rattle.rules.specs.Limits.{constraint_width, track_width, most_constraints, most_subnets, most_tracks};
ghost use Rattle.rules.specs.Constraints.{constraint_numbers};
ghost use Rattle.constraints_tables.specs.Places.{bumped};

use constraints_tables::put_track;
use rules::tokens::State;

// The constraint that is whole.
pub fn emit(
    sorts: bool,
    constraints: &mut [u32],
    next: &mut [usize],
    count: &mut usize,
    after: State,
) -> State
    requires { (get_or next.old after.entry.kind 0 ≤ most_constraints + most_constraints) × (count.old ≤ most_constraints) }
    ensures { (constraints.new ≡ sets constraints.old
        (cond sorts (get_or next.old after.entry.kind 0) count.old * constraint_width) (constraint_numbers after.entry))
        × (next.new ≡ bumped next.old after.entry.kind) × (count.new ≡ count.old + 1) × (result ≡ after) }
{
    constraints_tables::emit(sorts, constraints, next, *count, after.entry);
    *count += 1;
    after
}

// A subnet's id.
pub fn name(ids: &mut [u32], count: &mut usize, id: u32, after: State) -> State
    requires { count.old < length ids.old }
    ensures { (ids.new ≡ set ids.old count.old id) × (count.new ≡ count.old + 1) × (result ≡ after) }
{
    ids[*count] = id;
    *count += 1;
    after
}

// A track of the subnet that was opened last.
pub fn list(tracks: &mut [u32], subnets: usize, count: &mut usize, id: u32, after: State) -> State
    requires { (1 ≤ subnets) × (subnets ≤ most_subnets) × (count.old ≤ most_tracks) }
    ensures { (tracks.new ≡ sets tracks.old (count.old * track_width) (id ∷ (subnets - 1) ∷ [])) × (count.new ≡ count.old + 1) × (result ≡ after) }
{
    put_track(tracks, *count, id, (subnets - 1) as u32);
    *count += 1;
    after
}
