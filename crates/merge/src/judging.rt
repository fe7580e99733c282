// Two solutions over files that were read: both verdicts, and then the merge.
ghost use Rattle.std.specs.Prelude.{◌≡◌};
ghost use Rattle.solution_verdict.specs.Left.{Judgeable};
ghost use Rattle.merge.specs.Left.{violated_as, Disputable, Judges, Solves};

use crate::{not_written, writing};
use rules::answers::{Answer, Ruling};
use rules::outcomes::{Direction, Merged};
use tables_lent::{Counts, acceptance};

// A verdict that ends the merge: its tally is the merge's.
fn violated(ruling: Ruling) -> Merged
    ensures { result ≡ violated_as ruling }
{
    let answer = ruling.answer;
    let tally = ruling.tally;
    Merged {
        answer,
        tally,
        length: 0,
    }
}

// Both are read.
fn merge_chosen(
    direction: Direction,
    counts: Counts,
    second: &[u8],
    legs: &[u32],
    configurations: &[u32],
    constraints: &[u32],
    choices: &[u32],
    second_choices: &[u32],
    text: &mut [u8],
) -> Merged
    requires { Disputable counts second.now legs.now configurations.now constraints.now choices.now second_choices.now }
    ensures { Judges direction counts second.now legs.now configurations.now constraints.now
        choices.now second_choices.now text.old result text.new }
{
    let ruling = merge_order::judge_both(
        counts,
        legs,
        configurations,
        constraints,
        choices,
        second_choices,
    );
    let answer = ruling.answer;
    if acceptance::is_accepted(answer) {
        return writing::write_merge(
            direction,
            counts,
            second,
            legs,
            configurations,
            choices,
            second_choices,
            text,
        );
    }
    violated(ruling)
}

// A second solution's refusals come before both verdicts.
pub fn merge_solutions(
    h: u32,
    direction: Direction,
    counts: Counts,
    first: &[u8],
    second: &[u8],
    legs: &[u32],
    configurations: &[u32],
    constraints: &[u32],
    choices: &mut [u32],
    second_choices: &mut [u32],
    text: &mut [u8],
) -> Merged
    requires { Judgeable h counts legs.now configurations.now constraints.now }
    ensures { Solves h direction counts first.now second.now legs.now configurations.now constraints.now
        choices.old second_choices.old text.old result choices.new second_choices.new text.new }
{
    match merge_order::choose_both(first, second, h, counts, legs, choices, second_choices) {
        Err(refusal) => not_written(Answer::Refused(refusal)),
        Ok(()) => merge_chosen(
            direction,
            counts,
            second,
            legs,
            configurations,
            constraints,
            choices,
            second_choices,
            text,
        ),
    }
}
