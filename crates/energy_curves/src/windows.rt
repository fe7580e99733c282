// The curve table over a window of seconds: zeros, and the samples of a run added where they fall into the window.
ghost use Rattle.std.specs.Prelude.{◌≡◌, ◌+◌, ◌≤◌, length, pos};
ghost use Rattle.rules.specs.Entries.{filled};
ghost use Rattle.rules_theorems.specs.Laying.{laid_run, laid_home};
ghost use Rattle.energy_parts.specs.Seen.{home_in};
ghost use Rattle.energy_curves.specs.Room.{AddRoom, WindowRoom, HomeRoom, added_from};

use energy_parts::runs;

// The seconds from .. from + size - 1.
#[derive(Clone, Copy)]
pub struct Window {
    pub from: usize,
    pub size: usize,
}

pub fn clear(table: &mut [i32])
    ensures { table.new ≡ filled (pos 0) table.old }
{
    table.fill(0);
}

// Number by number, from a place on.
fn add(table: &mut [i32], at: usize, xs: &[i32])
    requires { (at + length xs.now ≤ length table.old) × AddRoom table.old xs.now }
    ensures { table.new ≡ added_from at xs.now table.old }
{
    for (j, &x) in xs.iter().enumerate() {
        table[at + j] += x;
    }
}

// The samples of a run in a subnet, from second `start` on, that fall into the window.
fn lay_run(table: &mut [i32], w: Window, subnet: usize, start: usize, xs: &[i32])
    requires { WindowRoom w.from w.size subnet table.old xs.now }
    ensures { table.new ≡ laid_run w.from w.size subnet start xs.now table.old }
{
    let Window { from, size } = w;
    let first = runs::samples_before(from, start, xs.len());
    let last = runs::samples_before(from + size, start, xs.len());
    if first < last {
        let at = subnet * size + (start + first - from);
        add(table, at, &xs[first..last]);
    }
}

// A run whose home is none of the n subnets adds nothing.
pub fn lay_home(
    table: &mut [i32],
    w: Window,
    n: usize,
    home: Option<usize>,
    start: usize,
    xs: &[i32],
)
    requires { HomeRoom w.from w.size n table.old xs.now }
    ensures { table.new ≡ laid_home w.from w.size n (home_in home) start xs.now table.old }
{
    if let Some(subnet) = home {
        if subnet < n {
            lay_run(table, w, subnet, start, xs);
        }
    }
}
