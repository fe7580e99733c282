// A row after those before it: what is counted, and its place in the table.
ghost use Rattle.std.specs.Prelude.{◌≡◌};
ghost use Rattle.solution_row.specs.Tests.{Earlier};
ghost use Rattle.solution.specs.Said.{Alone};
ghost use Rattle.solution.specs.Before.{counted_as, Turned};

use crate::row;
use rules::sizes::{Configuration, Leg};
use solution_row::faults;
use timetable_row::line;
use timetable_row::line::Line;

// More than any travel time.
pub const TRAVELS: u32 = Configuration::MOST_TRAVEL + 1;

// Where an entry holds both times of a choice in one number, beside the row's id.
pub const TIMES_AT: usize = 1;

fn counted_as(line: Line, before: Line) -> Line
    ensures { result ≡ counted_as line before }
{
    Line {
        rows: before.rows,
        configurations: before.configurations,
        above: before.above,
        ..line
    }
}

// A line after the rows before, none of which has a fresh id: the first fault's number, or the counts with this row among them.
pub fn turn(bytes: &[u8], h: u32, before: Line, fresh: Option<u32>, choices: &mut [u32]) -> Line
    requires { Alone h bytes.now × Earlier before.rows fresh choices.old }
    ensures { Turned h bytes.now before choices.old result choices.new }
{
    let alone = row::read_row(bytes, h);
    if alone.fault.is_some() {
        return alone;
    }
    let line = counted_as(alone, before);
    if let Some(number) = faults::fault(line, h, fresh, choices) {
        return line::stopped(line, number);
    }
    let numbers = line.numbers;
    line::store(
        choices,
        line.rows as usize,
        numbers[Leg::ID_AT],
        numbers[line::NOMINAL] * TRAVELS + numbers[line::NOMINAL_TRAVEL],
        numbers[line::NOMINAL_PROFILE],
    );
    line::next_row(line, 0)
}
