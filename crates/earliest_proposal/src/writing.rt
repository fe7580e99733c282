// A proposal as a timetable: the merge of its choices with themselves.
ghost use Rattle.std.specs.Prelude.{◌≡◌};
ghost use Rattle.earliest_proposal.specs.Left.{Left};
ghost use Rattle.earliest_proposal.specs.Text.{proposed_as, Writes, Makes};

use crate::settling;
use rules::answers::{Refusal, Ruling};
use rules::outcomes::{Direction, Proposed};
use tables_lent::acceptance;

// Where the answer is past the buffer's end, the text did not fit.
fn write_proposal(
    legs: &[u32],
    n: usize,
    configurations: &[u32],
    constraints: &[u32],
    m: usize,
    choices: &[u32],
    text: &mut [u8],
) -> usize
    ensures { Writes n m legs.now configurations.now constraints.now choices.now text.old result text.new }
{
    merge_text::put_merged(
        Direction::Earlier,
        legs,
        n,
        configurations,
        choices,
        choices,
        text,
    )
}

fn told(ruling: Ruling, length: usize) -> Proposed
    ensures { result ≡ proposed_as ruling length }
{
    let answer = ruling.answer;
    let tally = ruling.tally;
    Proposed {
        answer,
        tally,
        length,
    }
}

// The text is written where the proposal is accepted, and 16 is tested after it.
pub fn propose_text(
    legs: &mut [u32],
    n: usize,
    configurations: &[u32],
    constraints: &[u32],
    m: usize,
    choices: &mut [u32],
    text: &mut [u8],
) -> Proposed
    requires { Left n m legs.old configurations.now constraints.now }
    ensures { Makes n m legs.old configurations.now constraints.now choices.old text.old result legs.new choices.new text.new }
{
    let room = text.len();
    let ruling = settling::propose(legs, n, configurations, constraints, m, choices);
    let answer = ruling.answer;
    if acceptance::is_accepted(answer) {
        let length = write_proposal(legs, n, configurations, constraints, m, choices, text);
        if text_write::fits(length, room) {
            return told(ruling, length);
        }
        let short = settling::refused(Refusal::ROOM);
        return told(short, 0);
    }
    told(ruling, 0)
}
