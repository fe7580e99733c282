// The search over the tables that the files left.
ghost use Rattle.earliest_proposal.specs.Left.{Left};
ghost use Rattle.earliest_proposal.specs.Proposal.{Finds};

use earliest_search::{rounds, starts};

// Of `n` rows and `m` records. Where there is one, each leg's choice stands beside its nominal in the leg table; false where no solution keeps all records.
pub fn find(
    legs: &mut [u32],
    n: usize,
    configurations: &[u32],
    constraints: &[u32],
    m: usize,
) -> bool
    requires { Left n m legs.old configurations.now constraints.now }
    ensures { Finds n m legs.old configurations.now constraints.now result legs.new }
{
    starts::first_choices(legs, n, configurations);
    rounds::raise_all(legs, n, configurations, constraints, m)
}
