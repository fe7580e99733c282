// Two solutions over files that were read, in document 01's order: both are read, then the first's verdict, the second's, 17, 16. The order stands here and nowhere else; `merge` follows it.
#![tactic(auto)]

ghost use Rattle.std.specs.Prelude.{◌≡◌, ◌&&◌, ◌≤◌, leb, length};
ghost use Rattle.rules.specs.Limits.{most_text};
ghost use Rattle.solution_verdict.specs.Left.{Choosable};
ghost use Rattle.merge_order.specs.Both.{BothReady, ChoosesBoth, JudgesBoth};
ghost use Rattle.merge_order.specs.Order.{travel_answer, room_answer, first_of};

use csv_lines::places;
use rules::answers::{Answer, File, Refusal, Ruling};
use tables_lent::{Counts, acceptance};

// The second is read where the first is whole.
pub fn choose_both(
    first: &[u8],
    second: &[u8],
    h: u32,
    counts: Counts,
    legs: &[u32],
    choices: &mut [u32],
    second_choices: &mut [u32],
) -> Result<(), Refusal>
    requires { Choosable h counts legs.now }
    ensures { ChoosesBoth h counts first.now second.now legs.now choices.old second_choices.old result choices.new second_choices.new }
{
    match solution_verdict::choose(first, h, File::SOLUTION, counts, legs, choices) {
        Err(refusal) => Err(refusal),
        Ok(()) => solution_verdict::choose(
            second,
            h,
            File::SECOND_SOLUTION,
            counts,
            legs,
            second_choices,
        ),
    }
}

// The second is judged where the first is accepted; what is counted is the tests of the one that decides.
pub fn judge_both(
    counts: Counts,
    legs: &[u32],
    configurations: &[u32],
    constraints: &[u32],
    choices: &[u32],
    second_choices: &[u32],
) -> Ruling
    requires { BothReady counts legs.now configurations.now constraints.now choices.now second_choices.now }
    ensures { JudgesBoth counts legs.now configurations.now constraints.now choices.now second_choices.now result }
{
    let first = solution_verdict::judge_choices(
        counts,
        legs,
        configurations,
        constraints,
        choices,
        File::SOLUTION,
    );
    let answer = first.answer;
    if acceptance::is_accepted(answer) {
        let second = solution_verdict::judge_choices(
            counts,
            legs,
            configurations,
            constraints,
            second_choices,
            File::SECOND_SOLUTION,
        );
        return second;
    }
    first
}

// 17 lies in the second solution, at the row.
fn of_travels(unequal: Option<usize>, second: &[u8]) -> Answer
    requires { length second.now ≤ most_text }
    ensures { result ≡ travel_answer second.now unequal }
{
    match unequal {
        None => Answer::Accepted,
        Some(row) => {
            let refusal = places::row_refusal(Refusal::TRAVEL, File::SECOND_SOLUTION, second, row);
            Answer::Refused(refusal)
        }
    }
}

// 16 lies in no file.
fn of_room(length: usize, room: usize) -> Answer
    ensures { result ≡ room_answer (leb length room && leb length most_text) }
{
    if text_write::fits(length, room) {
        return Answer::Accepted;
    }
    Answer::Refused(Refusal::new(Refusal::ROOM, File::NONE, 0))
}

// The second answer counts where the first is acceptance.
fn first_of(one: Answer, two: Answer) -> Answer
    ensures { result ≡ first_of one two }
{
    if acceptance::is_accepted(one) {
        return two;
    }
    one
}

// Of two accepted solutions, by their travel times and by the size of the merged text.
pub fn of_merge(unequal: Option<usize>, second: &[u8], size: usize, room: usize) -> Answer
    requires { length second.now ≤ most_text }
    ensures { result ≡ first_of (travel_answer second.now unequal) (room_answer (leb size room && leb size most_text)) }
{
    let travel = of_travels(unequal, second);
    let fitting = of_room(size, room);
    first_of(travel, fitting)
}
