// What of a number stands above zero. Sums are cut at zero by it, and the small program tells a fluctuation's sign by it.
#![tactic(auto)]

ghost use Rattle.std.specs.Prelude.{◌≡◌};
ghost use Rattle.rules.specs.Energy as energy;

// max(x, 0)
pub fn above(x: i64) -> u64
    ensures { result ≡ energy.above x }
{
    x.max(0) as u64
}
