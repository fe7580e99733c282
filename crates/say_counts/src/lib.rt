// How much was read, counted off the tables: they are lent filled with a number that no field can have, so the entries end at the first of it. The small program says it of every acceptance.
#![tactic(auto)]

ghost use Rattle.std.specs.Prelude.{◌≡◌, ◌/◌, ◌<◌, length};
ghost use Rattle.rules.specs.Limits.{unsigned_fill};
ghost use Rattle.text_read.specs.Places.{up_to};
ghost use Rattle.tables_views.specs.View.{constraints_in};
ghost use Rattle.say_counts.specs.Counts.{samples_in, kinds_below, record_at};

use rules::sizes::{Constraint, Fill};

fn numbers(t: &[u32]) -> usize
    ensures { result ≡ up_to unsigned_fill t.now }
{
    for (at, &n) in t.iter().enumerate() {
        if n == Fill::UNSIGNED {
            return at;
        }
    }
    t.len()
}

// The entries of a table, of `width` numbers each.
pub fn entries(t: &[u32], width: usize) -> usize
    requires { 0 < width }
    ensures { result ≡ up_to unsigned_fill t.now / width }
{
    numbers(t) / width
}

// The samples of `n` profiles: they end where the last profile's do.
pub fn samples(profiles: &[u32], n: usize) -> u64
    ensures { result ≡ samples_in n profiles.now }
{
    if n == 0 {
        return 0;
    }
    let last = tables_views::profile_at(profiles, n - 1);
    last.first as u64 + last.count as u64
}

// The table has its records by kind: those of smaller kinds, among the first `m`, stand before a kind's first.
pub fn before_kind(constraints: &[u32], m: usize, kind: u32) -> usize
    ensures { result ≡ length (kinds_below kind (constraints_in m constraints.now)) }
{
    for i in 0..m {
        let c = tables_views::constraint_at(constraints, i);
        if kind <= c.kind {
            return i;
        }
    }
    m
}

// The record at a position within its kind's list.
pub fn record_at(constraints: &[u32], kind: u32, position: u32) -> Constraint
    ensures { result ≡ record_at constraints.now kind position }
{
    let m = entries(constraints, Constraint::WIDTH);
    let before = before_kind(constraints, m, kind);
    tables_views::constraint_at(constraints, before + position as usize)
}
