// The six rules of a row, by its line and the line before it: the lowest that is broken.
ghost use Rattle.std.specs.Prelude.{◌≡◌, eqb};
ghost use Rattle.rules.specs.Lists.{same_list};
ghost use Rattle.rules.specs.Duties.{start_column, end_column};
ghost use Rattle.duties_fields.specs.Fields.{content_in, time_is};
ghost use Rattle.duties_row.specs.Rowed.{held_in};
ghost use Rattle.duties_row.specs.Ruled.{follows_in, later_in, stays_in, sequence_in, meets_in, texts_in, first_rules, later_rules, rule_in};

use crate::{forms, numbers};
use duties_fields::{clocks, fields, names};
use rules::sizes::{Column, Rule};

// The first SEQ of a duty.
const FIRST_SEQ: u32 = 1;

// Whether two lines have the same name in two columns.
fn same_at(a: &[u8], j: usize, b: &[u8], k: usize) -> bool
    ensures { result ≡ same_list (content_in j a.now) (content_in k b.now) }
{
    names::same_name(fields::content_at(b, k), fields::content_at(a, j))
}

// The line before is of the same duty.
#[tactic(auto, unfolding(crate::specs::Ruled::follows_in))]
pub fn follows(before: &[u8], line: &[u8]) -> bool
    ensures { result ≡ follows_in before.now line.now }
{
    same_at(before, Column::DUTY, line, Column::DUTY)
}

// 1: it ends after it starts.
#[tactic(auto, unfolding(crate::specs::Ruled::later_in))]
fn is_later(line: &[u8]) -> bool
    ensures { result ≡ later_in line.now }
{
    let start = numbers::value_at(line, Column::START);
    let end = numbers::value_at(line, Column::END);
    start < end
}

// 2: only a TRAIN may end at another node.
#[tactic(auto, unfolding(crate::specs::Ruled::stays_in))]
fn stays(line: &[u8]) -> bool
    ensures { result ≡ stays_in line.now }
{
    forms::train_in(line) || same_at(line, Column::FROM, line, Column::TO)
}

// 4: SEQ runs from 1.
#[tactic(auto, unfolding(crate::specs::Ruled::sequence_in))]
fn is_next(before: &[u8], line: &[u8]) -> bool
    ensures { result ≡ sequence_in before.now line.now }
{
    let seq = numbers::value_at(line, Column::SEQ);
    if follows(before, line) {
        let last = numbers::value_at(before, Column::SEQ);
        return seq == last + 1;
    }
    seq == FIRST_SEQ
}

// The one starts when the other ends.
fn at_its_end(before: &[u8], line: &[u8]) -> bool
    ensures { result ≡ eqb (held_in start_column line.now) (held_in end_column before.now) }
{
    let start = numbers::value_at(line, Column::START);
    let end = numbers::value_at(before, Column::END);
    start == end
}

// 5: within a duty it starts at the time and node at which the one before ended.
#[tactic(auto, unfolding(crate::specs::Ruled::meets_in))]
fn meets(before: &[u8], line: &[u8]) -> bool
    ensures { result ≡ meets_in before.now line.now }
{
    !follows(before, line)
        || at_its_end(before, line) && same_at(before, Column::TO, line, Column::FROM)
}

// A time and its text.
fn text_at(line: &[u8], time: usize, text: usize) -> bool
    ensures { result ≡ time_is (held_in time line.now) (content_in text line.now) }
{
    let seconds = numbers::value_at(line, time);
    clocks::matches_time(fields::content_at(line, text), seconds)
}

// 6: both texts match their seconds.
#[tactic(auto, unfolding(crate::specs::Ruled::texts_in))]
fn has_texts(line: &[u8]) -> bool
    ensures { result ≡ texts_in line.now }
{
    text_at(line, Column::START, Column::START_TEXT) && text_at(line, Column::END, Column::END_TEXT)
}

// The lowest of the first three; `new` says that its duty was not seen before.
fn first_rules(new: bool, before: &[u8], line: &[u8]) -> u8
    ensures { result ≡ first_rules new before.now line.now }
{
    if !is_later(line) {
        return Rule::LATER;
    }
    if !stays(line) {
        return Rule::STAYS;
    }
    if new || follows(before, line) {
        return Rule::NONE;
    }
    Rule::TOGETHER
}

// The lowest of the last three.
fn later_rules(before: &[u8], line: &[u8]) -> u8
    ensures { result ≡ later_rules before.now line.now }
{
    if !is_next(before, line) {
        return Rule::SEQUENCE;
    }
    if !meets(before, line) {
        return Rule::MEETS;
    }
    if has_texts(line) {
        return Rule::NONE;
    }
    Rule::TEXTS
}

// The lowest rule that the row breaks, or 0.
pub fn broken_rule(new: bool, before: &[u8], line: &[u8]) -> u8
    ensures { result ≡ rule_in new before.now line.now }
{
    let first = first_rules(new, before, line);
    if first == Rule::NONE {
        return later_rules(before, line);
    }
    first
}
