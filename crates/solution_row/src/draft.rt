// 14: a solution's rows beside the draft's, which stand in the leg table, and the answer after the last row. Where the first row that differs starts is kept from row to row.
ghost use Rattle.std.specs.Prelude.{◌≡◌, ◌*◌, ◌≤◌, length};
ghost use Rattle.rules.specs.Limits.{leg_width, most_text};
ghost use Rattle.solution_row.specs.Against.{same_at, InTable, none_differs, next_id, is_known, compared_with, compared_answer};

use rules::answers::{Fault, Refusal};
use rules::sizes::Leg;
use timetable_row::line::LAST;

pub fn none_differs() -> Option<u32>
    ensures { result ≡ none_differs }
{
    None
}

// While no row differs the rows before have the draft's ids. No two of those are the same, so the draft's next id is new.
pub fn next_id(differing: Option<u32>, legs: &[u32], n: usize, row: usize) -> Option<u32>
    requires { n * leg_width ≤ length legs.now }
    ensures { result ≡ next_id differing legs.now n row }
{
    if differing.is_some() || n <= row {
        return None;
    }
    Some(legs[row * Leg::WIDTH])
}

pub fn is_known(fresh: Option<u32>, id: u32) -> bool
    ensures { result ≡ is_known fresh id }
{
    fresh.is_some_and(|known| known == id)
}

// A row's five ids are those of a row of the leg table.
fn same_ids(numbers: [u32; LAST], legs: &[u32], row: usize) -> bool
    requires { InTable row legs.now }
    ensures { result ≡ same_at numbers legs.now row }
{
    let from = row * Leg::WIDTH;
    legs[from..from + Leg::IDS] == numbers[..Leg::IDS]
}

// With one row more: a row past the draft's last differs too.
pub fn compared_with(
    differing: Option<u32>,
    numbers: [u32; LAST],
    legs: &[u32],
    n: usize,
    row: usize,
    place: u32,
) -> Option<u32>
    requires { n * leg_width ≤ length legs.now }
    ensures { result ≡ compared_with differing numbers legs.now n row place }
{
    if differing.is_some() || (row < n && same_ids(numbers, legs, row)) {
        return differing;
    }
    Some(place)
}

// 14 comes after every other fault; where rows are missing its place is the text's end. Without it there is a choice for each row.
pub fn compared_answer(
    differing: Option<u32>,
    rows: u32,
    n: usize,
    end: usize,
) -> Result<u32, Fault>
    requires { end ≤ most_text }
    ensures { result ≡ compared_answer differing rows n end }
{
    if let Some(place) = differing {
        return Err(Fault {
            number: Refusal::DIFFERS,
            place,
        });
    }
    if (rows as usize) < n {
        return Err(Fault {
            number: Refusal::DIFFERS,
            place: end as u32,
        });
    }
    Ok(rows)
}
