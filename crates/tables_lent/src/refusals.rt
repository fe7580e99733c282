// A refusal fills the tables and the choices.
ghost use Rattle.std.specs.Prelude.{◌≡◌};
ghost use Rattle.rules.specs.Answers.{is_refusal};
ghost use Rattle.rules.specs.Lent.{before, after};
ghost use Rattle.tables_lent.specs.After.{tables_after, choices_after};

use rules::answers::Answer;

pub fn is_refusal(answer: Answer) -> bool
    ensures { result ≡ is_refusal answer }
{
    matches!(answer, Answer::Refused(_))
}

pub fn empty_tables(
    answer: Answer,
    legs: &mut [u32],
    configurations: &mut [u32],
    profiles: &mut [u32],
    samples: &mut [i32],
    constraints: &mut [u32],
    tracks: &mut [u32],
)
    ensures { after legs configurations profiles samples constraints tracks ≡ tables_after answer (before legs configurations profiles samples constraints tracks) }
{
    if is_refusal(answer) {
        tables_fill::unsigned(legs);
        tables_fill::unsigned(configurations);
        tables_fill::unsigned(profiles);
        tables_fill::signed(samples);
        tables_fill::unsigned(constraints);
        tables_fill::unsigned(tracks);
    }
}

pub fn empty_choices(answer: Answer, choices: &mut [u32])
    ensures { choices.new ≡ choices_after answer choices.old }
{
    if is_refusal(answer) {
        tables_fill::unsigned(choices);
    }
}
