// Sums over the curve table of a whole horizon: the quarters that all subnets draw, each cut at zero, and the fluctuation of their sum.
ghost use Rattle.std.specs.Prelude.{◌≡◌, ◌<◌};
ghost use Rattle.energy_curves.specs.Curves.{CurveTable, quarters_in, total_in, fluctuation_in};

use energy_parts::quarters;
use rules::sizes::Horizon;

// The quarter sums, subnet by subnet.
pub fn drawn_quarters(curves: &[i32], n: usize, h: usize) -> [i64; Horizon::QUARTERS]
    requires { CurveTable h n curves.now }
    ensures { result ≡ quarters_in h curves.now n }
{
    let mut sums = [0i64; Horizon::QUARTERS];
    for s in 0..n {
        let from = s * h;
        let more = quarters::add_run(sums, &curves[from..from + h], 0);
        sums = more;
    }
    sums
}

// The power of all subnets together at a second.
fn total_at(curves: &[i32], n: usize, h: usize, t: usize) -> i64
    requires { CurveTable h n curves.now × (t < h) }
    ensures { result ≡ total_in h curves.now n t }
{
    let mut sum: i64 = 0;
    for s in 0..n {
        sum += curves[s * h + t] as i64;
    }
    sum
}

// Greatest minus least, over all seconds.
pub fn fluctuation(curves: &[i32], n: usize, h: usize) -> i64
    requires { CurveTable h n curves.now }
    ensures { result ≡ fluctuation_in h curves.now n }
{
    let mut most = total_at(curves, n, h, 0);
    let mut least = most;
    for t in 1..h {
        let total = total_at(curves, n, h, t);
        most = most.max(total);
        least = least.min(total);
    }
    most - least
}
