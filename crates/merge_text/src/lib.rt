// Merged texts (document 01): from two accepted solutions, the earlier or the later choice at each leg, written as a timetable into a lent buffer.
// What does not fit is not written, and still counted: `merge` learns from one number whether it fitted.
#![tactic(auto)]

ghost use Rattle.rules.specs.Merge.{text_of};
ghost use Rattle.text_write.specs.Written.{Written};
ghost use Rattle.merge_text.specs.Merges.{merged_in, rows_text};

use rules::outcomes::Direction;

// The draft's `n` rows, each with the choice that the merge takes as its nominal.
fn put_rows(
    direction: Direction,
    legs: &[u32],
    n: usize,
    configurations: &[u32],
    first: &[u32],
    second: &[u32],
    text: &mut [u8],
    at: usize,
) -> usize
    ensures { Written text.old at (rows_text (merged_in direction n legs.now configurations.now first.now second.now)) text.new result }
{
    let mut place = at;
    for i in 0..n {
        let leg = tables_views::leg_at(legs, i);
        let a = tables_views::configuration_at(first, i);
        let b = tables_views::configuration_at(second, i);
        let chosen = merge_choice::choose(direction, a, b);
        place = timetable_writer::put_row(text, place, leg, chosen, configurations);
    }
    place
}

// The whole merged text. Where the answer is past the buffer's end, the text did not fit.
pub fn put_merged(
    direction: Direction,
    legs: &[u32],
    n: usize,
    configurations: &[u32],
    first: &[u32],
    second: &[u32],
    text: &mut [u8],
) -> usize
    ensures { Written text.old 0 (text_of (merged_in direction n legs.now configurations.now first.now second.now)) text.new result }
{
    let after = timetable_writer::put_header(text, 0);
    put_rows(
        direction,
        legs,
        n,
        configurations,
        first,
        second,
        text,
        after,
    )
}
