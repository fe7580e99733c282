// Where an id stands in a flat table of records, each of which begins with its id; and whether an id is new. Ids mostly rise from record to record, so what rises is searched by halves, and the rest
// record by record. The readers and the energies look up by it.
#![tactic(auto)]

ghost use Rattle.std.specs.Prelude.{◌≡◌, ◌≤◌, eqb, take, drop};
ghost use Rattle.rules.specs.Lists.{place_from};
ghost use Rattle.tables_ids.specs.Column.{Records, Rising, Sought, Ascending, Last, Parted, column, place_of, is_new};

// The first record with an id, from a record on.
fn walk(table: &[u32], width: usize, from: usize, n: usize, id: u32) -> Option<usize>
    requires { Records width n table.now × (from ≤ n) }
    ensures { result ≡ place_from from (λ x. eqb x id) (drop from (column width n table.now)) }
{
    for i in from..n {
        if table[i * width] == id {
            return Some(i);
        }
    }
    None
}

// The first of n records with an id.
pub fn row_of(table: &[u32], width: usize, n: usize, id: u32) -> Option<usize>
    requires { Records width n table.now }
    ensures { result ≡ place_of id (column width n table.now) }
{
    walk(table, width, 0, n, id)
}

// Where an id stands among rising ids, or would stand.
fn parting(table: &[u32], width: usize, n: usize, id: u32) -> usize
    requires { Records width n table.now × Ascending (column width n table.now) }
    ensures { Parted (column width n table.now) id result }
{
    let mut low = 0;
    let mut high = n;
    // Kept (no plainer): the library's searches by halves go over a whole slice, and the ids stand a record apart, whose width is known only to the caller.
    while low < high {
        let middle = low + (high - low) / 2;
        if table[middle * width] < id {
            low = middle + 1;
        } else {
            high = middle;
        }
    }
    low
}

// The record with an id, where all ids rise.
fn halved(table: &[u32], width: usize, n: usize, id: u32) -> Option<usize>
    requires { Records width n table.now × Ascending (column width n table.now) }
    ensures { result ≡ place_of id (column width n table.now) }
{
    let at = parting(table, width, n, id);
    if n <= at {
        return None;
    }
    if table[at * width] == id {
        return Some(at);
    }
    None
}

// Where an id stands if each is one more than the one before: a guess, of which nothing is promised.
fn guess(table: &[u32], id: u32) -> usize {
    let Some(first) = table.first() else {
        return 0;
    };
    id.saturating_sub(*first) as usize
}

// `halved`, but faster: rising ids mostly count up by one.
fn among(table: &[u32], width: usize, n: usize, id: u32) -> Option<usize>
    requires { Records width n table.now × Ascending (column width n table.now) }
    ensures { result ≡ place_of id (column width n table.now) }
{
    let near = guess(table, id);
    if near < n {
        if table[near * width] == id {
            return Some(near);
        }
    }
    halved(table, width, n, id)
}

// The first of n records with an id, where the first so many ids rise: `row_of`, but fast.
pub fn find(table: &[u32], width: usize, n: usize, rising: usize, id: u32) -> Option<usize>
    requires { Rising width n rising table.now }
    ensures { result ≡ place_of id (column width n table.now) }
{
    match among(table, width, rising, id) {
        Some(i) => Some(i),
        None => walk(table, width, rising, n, id),
    }
}

// `find`, where no two records have the same id. Records are mostly numbered from 1: the one that then has the id is looked at first.
pub fn numbered(table: &[u32], width: usize, n: usize, rising: usize, id: u32) -> Option<usize>
    requires { Sought width n rising table.now }
    ensures { result ≡ place_of id (column width n table.now) }
{
    if 0 < id {
        let place = (id - 1) as usize;
        if place < n {
            if table[place * width] == id {
                return Some(place);
            }
        }
    }
    find(table, width, n, rising, id)
}

// How many of n ids rise, from the first on.
pub fn rising_of(table: &[u32], width: usize, n: usize) -> usize
    requires { Records width n table.now }
    ensures { Rising width n result table.now }
{
    if n == 0 {
        return 0;
    }
    for i in 1..n {
        if table[i * width] <= table[(i - 1) * width] {
            return i;
        }
    }
    n
}

// No record has the id. `last` is the last of the rising ids: a table that rises to its end needs no search for a greater one.
pub fn is_new(table: &[u32], width: usize, n: usize, rising: usize, last: u32, id: u32) -> bool
    requires { Rising width n rising table.now × Last (take rising (column width n table.now)) last }
    ensures { result ≡ is_new id (column width n table.now) }
{
    if rising == n {
        if last < id {
            return true;
        }
    }
    match find(table, width, n, rising, id) {
        Some(_) => false,
        None => true,
    }
}
