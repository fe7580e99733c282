// What is answered of rolling stock duties, in numbers.
ghost use Rattle.std.specs.Prelude.{◌≡◌};
ghost use Rattle.rules.specs.declared.answers.Told.TheVariants.{Broken, Refused};
ghost use Rattle.exports_numbers.specs.Duties.{told_numbers, duties_numbers};

use crate::{Code, Numbers};
use rules::answers::{BrokenRule, Refusal, Told};
use rules::outcomes::Duties;

fn of_broken(b: BrokenRule) -> Numbers
    ensures { result ≡ told_numbers (Broken b) }
{
    crate::untested(&[Code::BROKEN, b.row as u64, b.rule as u64, b.place as u64])
}

fn of_refused(f: Refusal) -> Numbers
    ensures { result ≡ told_numbers (Refused f) }
{
    crate::untested(&[
        Code::REFUSED,
        f.number as u64,
        f.file as u64,
        f.place as u64,
    ])
}

fn of_told(answer: Told) -> Numbers
    ensures { result ≡ told_numbers answer }
{
    match answer {
        Told::Accepted(nodes) => crate::untested(&[Code::ACCEPTED, nodes as u64]),
        Told::Broken(b) => of_broken(b),
        Told::Refused(f) => of_refused(f),
    }
}

pub fn of_duties(duties: Duties) -> Numbers
    ensures { result ≡ duties_numbers duties }
{
    of_told(duties.answer)
}
