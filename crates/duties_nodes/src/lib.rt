// The nodes of a file of duties, in the order in which they are first seen.
#![tactic(auto)]

ghost use Rattle.std.specs.Prelude.{◌≡◌, ◌*◌, ◌+◌, ◌≤◌, ◌<◌, length, set};
ghost use Rattle.rules.specs.Limits.{node_width};
ghost use Rattle.rules.specs.Lists.{same_list};
ghost use Rattle.duties_nodes.specs.Nodes.{name_at, view, place_of, with_both, Puts};

use duties_fields::names;
use rules::sizes::Node;

pub mod balances; // the balance of each node

fn wide(x: u32) -> usize
    ensures { result ≡ x }
{
    x as usize
}

// Whether node i has a name.
fn name_is(text: &[u8], table: &[u32], i: usize, name: &[u8]) -> bool
    requires { i * node_width + 1 < length table.now }
    ensures { result ≡ same_list name.now (name_at text.now table.now i) }
{
    let first = i * Node::WIDTH;
    let at = wide(table[first]);
    let long = wide(table[first + Node::LENGTH_AT]);
    names::same_part(text, at, long, name)
}

// The place of a name among the n first.
pub fn place_of(text: &[u8], table: &[u32], n: usize, name: &[u8]) -> Option<usize>
    requires { n * node_width ≤ length table.now }
    ensures { result ≡ place_of name.now (view text.now table.now n) }
{
    for i in 0..n {
        if name_is(text, table, i, name) {
            return Some(i);
        }
    }
    None
}

fn put_number(table: &mut [u32], i: usize, n: u32)
    ensures { table.new ≡ set table.old i n }
{
    if i < table.len() {
        table[i] = n;
    }
}

// How many nodes there are with two more names.
pub fn with_both(text: &[u8], table: &[u32], n: usize, from: &[u8], to: &[u8]) -> usize
    requires { n * node_width ≤ length table.now }
    ensures { result ≡ length (with_both (view text.now table.now n) from.now to.now) }
{
    let a = place_of(text, table, n, from);
    let b = place_of(text, table, n, to);
    match (a, b) {
        (Some(_), Some(_)) => n,
        (Some(_), None) => n + 1,
        (None, Some(_)) => n + 1,
        (None, None) => {
            if names::same_name(from, to) {
                n + 1
            } else {
                n + 2
            }
        }
    }
}

// A name that stands in the text is put behind the n others, where it is new: how many there are then.
pub fn put_node(text: &[u8], table: &mut [u32], n: usize, name: &[u8], at: u32, long: u32) -> usize
    requires { (n * node_width ≤ length table.old) × (long ≡ length name.now) }
    ensures { Puts text.now table.old n name.now at result table.new }
{
    match place_of(text, table, n, name) {
        Some(_) => n,
        None => {
            let first = n * Node::WIDTH;
            put_number(table, first, at);
            put_number(table, first + Node::LENGTH_AT, long);
            n + 1
        }
    }
}
