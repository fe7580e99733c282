// The number by which a timetable's row that is over is at fault: its tests, in the order of their numbers. The draft's reader asks it.
#![tactic(auto)]

ghost use Rattle.std.specs.Prelude.{◌≡◌, not};
ghost use Rattle.timetable_row.specs.RowOver.{is_new, room_holds, line_tests, lowest};

use rules::answers::Refusal;
use rules::sizes::{Configuration, Leg};
use timetable_row::line;
use timetable_row::line::Line;

// An id above all others is new; another is looked for row by row.
fn is_new(legs: &[u32], rows: u32, above: u32, id: u32) -> bool
    ensures { result ≡ is_new rows above id legs.now }
{
    let n = rows as usize;
    if above <= id || legs.len() / Leg::WIDTH < n {
        return true;
    }
    for i in 0..n {
        if legs[i * Leg::WIDTH + Leg::ID_AT] == id {
            return false;
        }
    }
    true
}

fn no_room(line: Line, legs: usize, configurations: usize) -> bool
    ensures { result ≡ not (room_holds line legs configurations) }
{
    legs / Leg::WIDTH <= line.rows as usize
        || configurations / Configuration::WIDTH
            < line.configurations as usize + line.entries as usize
}

// The lowest number that the row is at fault by.
pub fn fault(line: Line, h: u32, legs: &[u32], room: usize) -> Option<u8>
    ensures { result ≡ lowest (line_tests h line legs.now room) }
{
    if line::out_of_range(line, h) {
        return Some(Refusal::RANGE);
    }
    if line::too_many(line) {
        return Some(Refusal::COUNT);
    }
    if !is_new(legs, line.rows, line.above, line.numbers[Leg::ID_AT]) {
        return Some(Refusal::SEEN);
    }
    if line.entries <= line.nominal {
        return Some(Refusal::NOMINAL);
    }
    if no_room(line, legs.len(), room) {
        return Some(Refusal::ROOM);
    }
    None
}
