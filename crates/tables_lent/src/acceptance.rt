// All but acceptance fills the curves, and zeroes the text.
ghost use Rattle.std.specs.Prelude.{◌≡◌};
ghost use Rattle.rules.specs.Answers.{is_accepted};
ghost use Rattle.tables_lent.specs.After.{curves_after, text_after};

use rules::answers::Answer;

pub fn is_accepted(answer: Answer) -> bool
    ensures { result ≡ is_accepted answer }
{
    matches!(answer, Answer::Accepted)
}

pub fn empty_curves(answer: Answer, curves: &mut [i32])
    ensures { curves.new ≡ curves_after answer curves.old }
{
    if !is_accepted(answer) {
        tables_fill::signed(curves);
    }
}

pub fn empty_text(answer: Answer, text: &mut [u8])
    ensures { text.new ≡ text_after answer text.old }
{
    if !is_accepted(answer) {
        tables_fill::bytes(text);
    }
}
