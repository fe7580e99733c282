// The three answers in numbers, and what an entry tells besides.
ghost use Rattle.std.specs.Prelude.{◌≤◌, ◌≡◌, ◌∷◌, length};
ghost use Rattle.rules.specs.Answers.{values_of};
ghost use Rattle.rules.specs.declared.answers.Answer.TheVariants.{Violated, Refused};
ghost use Rattle.exports_numbers.specs.Numbers.{lent_values, violated_code, refused_code, told, answer_numbers, check_numbers, merge_numbers, row_numbers};

use crate::{Code, Numbers};
use rules::answers::{Answer, Refusal, Tally, Violation};
use rules::outcomes::{Checked, Merged};

fn of_violation(v: Violation, tally: Tally) -> Numbers
    ensures { result ≡ told (violated_code ∷ values_of (Violated v)) tally }
{
    crate::told(
        &[
            Code::VIOLATED,
            v.kind as u64,
            v.position as u64,
            v.inequality as u64,
            v.shortfall as u64,
            v.file as u64,
        ],
        tally,
    )
}

fn of_refusal(f: Refusal, tally: Tally) -> Numbers
    ensures { result ≡ told (refused_code ∷ values_of (Refused f)) tally }
{
    crate::told(
        &[
            Code::REFUSED,
            f.number as u64,
            f.file as u64,
            f.place as u64,
        ],
        tally,
    )
}

// What is told of an accepted answer is the entry's own. A refusal has no tests, whatever was counted before it.
pub fn of_answer(answer: Answer, tally: Tally, accepted: &[u64]) -> Numbers
    requires { length accepted.now ≤ lent_values }
    ensures { result ≡ answer_numbers accepted.now tally answer }
{
    match answer {
        Answer::Accepted => crate::told(accepted, tally),
        Answer::Violated(v) => of_violation(v, tally),
        Answer::Refused(f) => of_refusal(f, Tally::none()),
    }
}

pub fn of_check(checked: Checked) -> Numbers
    ensures { result ≡ check_numbers checked }
{
    of_answer(checked.answer, checked.tally, &[Code::ACCEPTED])
}

pub fn of_merge(merged: Merged) -> Numbers
    ensures { result ≡ merge_numbers merged }
{
    of_answer(
        merged.answer,
        merged.tally,
        &[Code::ACCEPTED, merged.length as u64],
    )
}

pub fn of_row(start: usize, length: usize) -> Numbers
    ensures { result ≡ row_numbers start length }
{
    crate::untested(&[Code::ROW, start as u64, length as u64])
}
