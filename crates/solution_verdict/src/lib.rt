// A solution over files that were read: its choices are read, and judged. Check and energy ask it once, a merge twice.
#![tactic(auto)]

ghost use Rattle.solution_verdict.specs.Left.{Choosable, Chooses, Ready, Judges};

use rules::answers::{Refusal, Ruling};
use solution::reader;
use tables_lent::Counts;

// A solution's text against the draft; its refusals lie in `file`.
pub fn choose(
    text: &[u8],
    h: u32,
    file: u8,
    counts: Counts,
    legs: &[u32],
    choices: &mut [u32],
) -> Result<(), Refusal>
    requires { Choosable h counts legs.now }
    ensures { Chooses h file counts text.now legs.now choices.old result choices.new }
{
    let n = counts.legs;
    match reader::read_choices(text, h, legs, n, choices) {
        Err(fault) => Err(fault.in_file(file)),
        Ok(_) => Ok(()),
    }
}

// The verdict over choices that were read; a violation names `file`.
pub fn judge_choices(
    counts: Counts,
    legs: &[u32],
    configurations: &[u32],
    constraints: &[u32],
    choices: &[u32],
    file: u8,
) -> Ruling
    requires { Ready counts legs.now configurations.now constraints.now choices.now }
    ensures { Judges counts legs.now configurations.now constraints.now choices.now file result }
{
    let n = counts.legs;
    let m = counts.constraints;
    verdict::judge(legs, n, configurations, constraints, m, choices, file)
}
