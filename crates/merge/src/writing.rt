// Two accepted solutions. The text is written before 17 and 16 are tested: a refusal zeroes it.
ghost use Rattle.std.specs.Prelude.{◌≡◌};
ghost use Rattle.merge.specs.Left.{written_as, Mergeable, Writes};

use crate::not_written;
use rules::answers::{Answer, Tally};
use rules::outcomes::{Direction, Merged};
use tables_lent::{Counts, acceptance};

// A text that is written is no verdict: it counts nothing.
fn written(answer: Answer, length: usize) -> Merged
    ensures { result ≡ written_as answer length }
{
    let tally = Tally::none();
    Merged {
        answer,
        tally,
        length,
    }
}

pub fn write_merge(
    direction: Direction,
    counts: Counts,
    second: &[u8],
    legs: &[u32],
    configurations: &[u32],
    choices: &[u32],
    second_choices: &[u32],
    text: &mut [u8],
) -> Merged
    requires { Mergeable counts second.now legs.now configurations.now choices.now second_choices.now }
    ensures { Writes direction counts second.now legs.now configurations.now choices.now second_choices.now text.old result text.new }
{
    let n = counts.legs;
    let unequal = merge_choice::unequal(choices, second_choices, n);
    let length = merge_text::put_merged(
        direction,
        legs,
        n,
        configurations,
        choices,
        second_choices,
        text,
    );
    let answer = merge_order::of_merge(unequal, second, length, text.len());
    if acceptance::is_accepted(answer) {
        return written(answer, length);
    }
    not_written(answer)
}
