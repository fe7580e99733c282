// A proposal, as it is ruled on: 19, 16 for the choice table, or the ordinary verdict.
ghost use Rattle.std.specs.Prelude.{◌≡◌};
ghost use Rattle.earliest_proposal.specs.Left.{Left};
ghost use Rattle.earliest_proposal.specs.Proposal.{refused_as, Settleable, Settles, Decides};

use crate::finding;
use earliest_search::leaving;
use rules::answers::{Answer, File, Refusal, Ruling, Tally};
use rules::sizes::Configuration;

// 19 and 16 lie in no file; nothing is counted.
pub fn refused(number: u8) -> Ruling
    ensures { result ≡ refused_as number }
{
    let answer = Answer::Refused(Refusal::new(number, File::NONE, 0));
    let tally = Tally::none();
    Ruling { answer, tally }
}

// The choices go into their own table, the leg table is put back as it was read, and then comes the verdict.
fn settle(
    legs: &mut [u32],
    n: usize,
    configurations: &[u32],
    constraints: &[u32],
    m: usize,
    choices: &mut [u32],
) -> Ruling
    requires { Settleable n m legs.old configurations.now constraints.now choices.old }
    ensures { Settles n m legs.old configurations.now constraints.now choices.old result legs.new choices.new }
{
    leaving::unpack_choices(legs, n, configurations, choices);
    leaving::restore(legs, n);
    verdict::judge(
        legs,
        n,
        configurations,
        constraints,
        m,
        choices,
        File::SOLUTION,
    )
}

// 19 comes before 16: it is found however short the choice table is.
pub fn propose(
    legs: &mut [u32],
    n: usize,
    configurations: &[u32],
    constraints: &[u32],
    m: usize,
    choices: &mut [u32],
) -> Ruling
    requires { Left n m legs.old configurations.now constraints.now }
    ensures { Decides n m legs.old configurations.now constraints.now choices.old result legs.new choices.new }
{
    let room = choices.len() / Configuration::WIDTH;
    if finding::find(legs, n, configurations, constraints, m) {
        if n <= room {
            return settle(legs, n, configurations, constraints, m, choices);
        }
        return refused(Refusal::ROOM);
    }
    refused(Refusal::NO_SOLUTION)
}
