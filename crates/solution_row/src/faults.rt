// A solution's row after those before it: its tests. While a solution is read, an entry of its choices begins with the row's id.
ghost use Rattle.std.specs.Prelude.{◌≡◌};
ghost use Rattle.timetable_row.specs.RowOver.{lowest};
ghost use Rattle.solution_row.specs.Tests.{new_after, choice_tests, Earlier};

use crate::draft;
use rules::answers::Refusal;
use rules::sizes::{Choice, Leg};
use timetable_row::line;
use timetable_row::line::Line;

// An id above all others is new, and so is one that is known to be; another is looked for row by row.
fn is_new(choices: &[u32], rows: usize, above: u32, fresh: Option<u32>, id: u32) -> bool
    requires { Earlier rows fresh choices.now }
    ensures { result ≡ new_after rows above id choices.now }
{
    if above <= id {
        return true;
    }
    if draft::is_known(fresh, id) {
        return true;
    }
    match tables_ids::row_of(choices, Choice::WIDTH, rows, id) {
        Some(_) => false,
        None => true,
    }
}

// The lowest number that the row is at fault by.
pub fn fault(line: Line, h: u32, fresh: Option<u32>, choices: &[u32]) -> Option<u8>
    requires { Earlier line.rows fresh choices.now }
    ensures { result ≡ lowest (choice_tests h line choices.now) }
{
    if line::out_of_range(line, h) {
        return Some(Refusal::RANGE);
    }
    if line::too_many(line) {
        return Some(Refusal::COUNT);
    }
    let rows = line.rows as usize;
    if !is_new(choices, rows, line.above, fresh, line.numbers[Leg::ID_AT]) {
        return Some(Refusal::SEEN);
    }
    if line.entries <= line.nominal {
        return Some(Refusal::NOMINAL);
    }
    if choices.len() / Choice::WIDTH <= rows {
        return Some(Refusal::ROOM);
    }
    None
}
