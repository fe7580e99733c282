// Powers are cut at zero, number by number: what stands above it is drawn, what stands below it is lost.
ghost use Rattle.std.specs.Prelude.{◌≡◌, ◌*◌, ◌≤◌, ◌<◌, length};
ghost use Rattle.rules.specs.Energy as energy;
ghost use Rattle.rules.specs.Limits.{most_subnets, most_horizon};
ghost use Rattle.energy_parts.specs.Parts.{SmallPart, sides_of};

// The sums of the two sides, in kilojoules.
#[derive(Clone, Copy)]
pub struct Sides {
    pub above: u64,
    pub below: u64,
}

// max(x, 0)
pub fn above(x: i32) -> u64
    ensures { SmallPart (energy.above x) result }
{
    x.max(0) as u64
}

// max(-x, 0)
pub fn below(x: i32) -> u64
    ensures { SmallPart (energy.below x) result }
{
    x.min(0).unsigned_abs() as u64
}

// Of the numbers of a curve, or of several.
pub fn sides_of(p: &[i32]) -> Sides
    requires { length p.now ≤ most_subnets * most_horizon }
    ensures { result ≡ sides_of p.now }
{
    let mut drawn: u64 = 0;
    let mut lost: u64 = 0;
    for &x in p {
        drawn += above(x);
        lost += below(x);
    }
    Sides {
        above: drawn,
        below: lost,
    }
}
