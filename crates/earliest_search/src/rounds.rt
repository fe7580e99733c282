// Rounds over the constraint table: the leg that a failing inequality holds back is moved on to its next offer, until a round moves none. Which record comes first is no matter: what the search keeps
// leads to the same choices in any order (`low_kept` of `earliest_theorems`). Every move passes over an offer, so there are no more rounds than offers.
ghost use Rattle.std.specs.Prelude.{◌≡◌};
ghost use Rattle.rules.specs.Earliest.{held_back};
ghost use Rattle.earliest_offer.specs.Offer.{chosen_at};
ghost use Rattle.earliest_search.specs.Searching.{found_by, Searching, Turning, LateAt, Turned, Passed, Sorted};

use rules::kinds::Kind;
use rules::sizes::Constraint;
use verdict::records;
use verdict::records::Finding;

// Of a record, and of a round: kept; a row was moved on; no solution keeps it.
#[derive(Clone, Copy)]
pub enum Turn {
    Kept,
    Raised,
    Never,
}

// A row that has to leave later.
#[derive(Clone, Copy)]
pub struct Late {
    pub row: usize,
    pub by: u32,
}

// The inequality of a connection that has its maximum.
const AT_MOST: u8 = 2;

// The row whose time is the right side of a record's inequality.
fn held_back(c: Constraint, inequality: u8) -> u32
    ensures { result ≡ held_back c inequality }
{
    if c.kind == Kind::CONNECTION as u32 && inequality == AT_MOST {
        return c.first;
    }
    c.second
}

// What is found of a record over the choices.
fn found_at(legs: &[u32], configurations: &[u32], c: Constraint) -> Finding
    ensures { result ≡ found_by c (chosen_at legs.now configurations.now c.first) (chosen_at legs.now configurations.now c.second) }
{
    let one = earliest_offer::chosen_at(legs, configurations, c.first as usize);
    let two = earliest_offer::chosen_at(legs, configurations, c.second as usize);
    records::find_record(c, one, two)
}

// The row that record `i`, of `m`, holds back over the choices of `n` rows, and by how much; None where the record is kept.
fn late_at(
    legs: &[u32],
    n: usize,
    configurations: &[u32],
    constraints: &[u32],
    m: usize,
    i: usize,
) -> Option<Late>
    requires { Turning n m i legs.now configurations.now constraints.now }
    ensures { LateAt n m i legs.now configurations.now constraints.now result }
{
    let c = tables_views::constraint_at(constraints, i);
    if let Err(failing) = found_at(legs, configurations, c) {
        let row = held_back(c, failing.inequality);
        return Some(Late {
            row: row as usize,
            by: failing.short as u32,
        });
    }
    None
}

// The turn of record `i`.
fn visit(
    legs: &mut [u32],
    n: usize,
    configurations: &[u32],
    constraints: &[u32],
    m: usize,
    i: usize,
) -> Turn
    requires { Turning n m i legs.old configurations.now constraints.now }
    ensures { Turned n m i legs.old configurations.now constraints.now result legs.new }
{
    let Some(late) = late_at(legs, n, configurations, constraints, m, i) else {
        return Turn::Kept;
    };
    if earliest_offer::raise(legs, configurations, late.row, late.by) {
        return Turn::Raised;
    }
    Turn::Never
}

// All records in order, each over the choices as those before have left them.
fn pass(legs: &mut [u32], n: usize, configurations: &[u32], constraints: &[u32], m: usize) -> Turn
    requires { Searching n m legs.old configurations.now constraints.now }
    ensures { Passed n m legs.old configurations.now constraints.now result legs.new }
{
    let mut quiet = true;
    for i in 0..m {
        match visit(legs, n, configurations, constraints, m, i) {
            Turn::Kept => {}
            Turn::Raised => quiet = false,
            Turn::Never => return Turn::Never,
        }
    }
    if quiet { Turn::Kept } else { Turn::Raised }
}

// Rounds, until one moves nothing. False where no solution keeps all records.
pub fn raise_all(
    legs: &mut [u32],
    n: usize,
    configurations: &[u32],
    constraints: &[u32],
    m: usize,
) -> bool
    requires { Searching n m legs.old configurations.now constraints.now }
    ensures { Sorted n m legs.old configurations.now constraints.now result legs.new }
{
    // Kept (no plainer): how many passes there are shows only from what each has moved.
    'rounds: loop {
        match pass(legs, n, configurations, constraints, m) {
            Turn::Kept => return true,
            Turn::Raised => {}
            Turn::Never => return false,
        }
    }
}
