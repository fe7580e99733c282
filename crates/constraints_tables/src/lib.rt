// Entries of constraints.json written into the lent tables, each at its kind's place. What has no room there is not written.
#![tactic(auto)]

ghost use Rattle.std.specs.Prelude.{◌≡◌, true, cond, [], ◌∷◌, ◌+◌, ◌*◌, ◌≤◌, get_or, set};
ghost use Rattle.std.proofs.lemmas.List.Edits.{sets};
ghost use Rattle.rules.specs.Limits.{constraint_width, track_width, most_constraints, most_tracks};
ghost use Rattle.rules.specs.Constraints.{constraint_numbers};
ghost use Rattle.constraints_tables.specs.Places.{last_place, bumped, before_last, starts_of, Upward};
ghost use Rattle.tables_ids.specs.Column.{Records};

use rules::kinds::Kind;
use rules::sizes::{Constraint, Track};

fn put_number(table: &mut [u32], i: usize, n: u32)
    ensures { table.new ≡ set table.old i n }
{
    if i < table.len() {
        table[i] = n;
    }
}

// Numbers one after the other, from a place on.
fn put_numbers(table: &mut [u32], place: usize, numbers: &[u32])
    requires { place ≤ last_place }
    ensures { table.new ≡ sets table.old place numbers.now }
{
    for (k, n) in numbers.iter().enumerate() {
        put_number(table, place + k, *n);
    }
}

fn put_constraint(table: &mut [u32], place: usize, c: Constraint)
    requires { place ≤ most_constraints + most_constraints }
    ensures { table.new ≡ sets table.old (place * constraint_width) (constraint_numbers c) }
{
    let numbers = [c.kind, c.first, c.second, c.low, c.high, c.connection];
    put_numbers(table, place * Constraint::WIDTH, &numbers);
}

pub fn put_track(table: &mut [u32], place: usize, id: u32, subnet: u32)
    requires { place ≤ most_tracks }
    ensures { table.new ≡ sets table.old (place * track_width) (id ∷ subnet ∷ []) }
{
    let numbers = [id, subnet];
    put_numbers(table, place * Track::WIDTH, &numbers);
}

// The next place of a kind.
fn next_of(next: &[usize], kind: u32) -> usize
    ensures { result ≡ get_or next.now kind 0 }
{
    next.get(kind as usize).copied().unwrap_or(0)
}

// That place is taken.
fn bump(next: &mut [usize], kind: u32)
    requires { get_or next.old kind 0 ≤ most_constraints + most_constraints }
    ensures { next.new ≡ bumped next.old kind }
{
    let k = kind as usize;
    if k < next.len() {
        next[k] += 1;
    }
}

// Where a constraint goes: to the next place of its kind, or behind the `count` before it.
fn place_of(sorts: bool, next: &[usize], kind: u32, count: usize) -> usize
    ensures { result ≡ cond sorts (get_or next.now kind 0) count }
{
    if sorts { next_of(next, kind) } else { count }
}

// A constraint goes there, and the next place of its kind is taken.
pub fn emit(sorts: bool, table: &mut [u32], next: &mut [usize], count: usize, c: Constraint)
    requires { (get_or next.old c.kind 0 ≤ most_constraints + most_constraints) × (count ≤ most_constraints) }
    ensures { (table.new ≡ sets table.old (cond sorts (get_or next.old c.kind 0) count * constraint_width) (constraint_numbers c)) × (next.new ≡ bumped next.old c.kind) }
{
    let place = place_of(sorts, &next[..], c.kind, count);
    put_constraint(table, place, c);
    bump(next, c.kind);
}

// Whether n constraints stand by kind.
pub fn in_order(table: &[u32], n: usize) -> bool
    requires { Records constraint_width n table.now }
    ensures { result ≡ true → Upward n table.now }
{
    for i in 1..n {
        if table[i * Constraint::WIDTH] < table[(i - 1) * Constraint::WIDTH] {
            return false;
        }
    }
    true
}

// A place for each kind, by its number.
pub const PLACES: usize = Kind::COUNT + 1;

// Kinds 1 to 5 by how many each has: where each starts.
pub fn starts_of(counts: [usize; PLACES]) -> [usize; PLACES]
    requires { before_last counts ≤ most_constraints }
    ensures { result ≡ starts_of counts }
{
    let second = counts[Kind::HEADWAY as usize];
    let third = second + counts[Kind::SINGLE_TRACK as usize];
    let fourth = third + counts[Kind::DWELL as usize];
    let fifth = fourth + counts[Kind::TURNAROUND as usize];
    [0, 0, second, third, fourth, fifth]
}
