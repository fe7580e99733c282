// The operator's desk tool takes four doubles: whole kilojoules cast without loss, and divided once.
ghost use Rattle.std.specs.Prelude.{◌≡◌, ◌≤◌, ◌<◌};
ghost use Rattle.std.specs.Float.{binary64};
ghost use Rattle.std.specs.Float.Ieee.{to_bits};
ghost use Rattle.rules.specs.Limits.{most_kj};
ghost use Rattle.rules.specs.Energy.{quotient, desk_of};
ghost use Rattle.energy_parts.specs.Exact.{Exact};
ghost use Rattle.energy_parts.specs.Bits.{bits_of};

use rules::figures::{Desk, Figures};

// The exact quotient, rounded once.
fn divided(kj: u64, by: u64) -> f64
    requires { (kj ≤ most_kj) × (0 < by) × (by ≤ most_kj) }
    ensures { result ≡ quotient kj by }
{
    kj as f64 / by as f64
}

// In megawatt hours, and the peak in megawatts.
pub fn for_desk(g: Figures) -> Desk
    requires { Exact g }
    ensures { result ≡ desk_of g }
{
    Desk {
        before: divided(g.before, Figures::KJ_A_MWH),
        drawn: divided(g.drawn, Figures::KJ_A_MWH),
        lost: divided(g.lost, Figures::KJ_A_MWH),
        peak: divided(g.peaks.drawn.kj, Figures::KJ_A_MW),
    }
}

// The patterns of the four doubles, for callers that compare them or hand them on.
#[derive(Clone, Copy)]
pub struct Bits {
    pub before: u64,
    pub drawn: u64,
    pub lost: u64,
    pub peak: u64,
}

impl Bits {
    // `for_desk` gives no double of this pattern; it has one all the same, so that nothing is asked of a caller.
    const NOT_A_NUMBER: u64 = 0x7FF8_0000_0000_0000;
}

fn pattern(x: f64) -> u64
    ensures { result ≡ to_bits binary64 x }
{
    if x != x {
        return Bits::NOT_A_NUMBER;
    }
    f64::to_bits(x)
}

pub fn bits_of(desk: Desk) -> Bits
    ensures { result ≡ bits_of desk }
{
    Bits {
        before: pattern(desk.before),
        drawn: pattern(desk.drawn),
        lost: pattern(desk.lost),
        peak: pattern(desk.peak),
    }
}
