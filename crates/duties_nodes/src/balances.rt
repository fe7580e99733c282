// The balance of each node: duties ending less duties starting.
ghost use Rattle.std.specs.Prelude.{◌≡◌, ◌≤◌, length, replicate, pos};
ghost use Rattle.rules.specs.Lists.{over};
ghost use Rattle.duties_nodes.specs.Nodes.{name_at, view};
ghost use Rattle.duties_nodes.specs.Balances.{bumped_at, bumped_one, BumpRoom, OneRoom};

use crate::name_is;

// The first n begin with 0.
pub fn clear(balance: &mut [i32], n: usize)
    requires { n ≤ length balance.old }
    ensures { balance.new ≡ over (replicate n (pos 0)) balance.old }
{
    balance[..n].fill(0);
}

// Node i, where it has the name.
fn bump_one(text: &[u8], table: &[u32], i: usize, name: &[u8], balance: &mut [i32], by: i32)
    requires { OneRoom table.now i balance.old by }
    ensures { balance.new ≡ bumped_one name.now by i (name_at text.now table.now i) balance.old }
{
    if name_is(text, table, i, name) {
        balance[i] += by;
    }
}

// The node of a name, among the n first.
pub fn bump(text: &[u8], table: &[u32], n: usize, name: &[u8], balance: &mut [i32], by: i32)
    requires { BumpRoom table.now n balance.old by }
    ensures { balance.new ≡ bumped_at name.now by 0 (view text.now table.now n) balance.old }
{
    for i in 0..n {
        bump_one(text, table, i, name, balance, by);
    }
}
