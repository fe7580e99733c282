// A line by itself: the timetable's machine reads it, after no rows and into no tables.
ghost use Rattle.rules.specs.Bytes.{less_return};
ghost use Rattle.rules.specs.Timetable.{form_of};
ghost use Rattle.solution.specs.Said.{Alone, SaidOf, RowClosed};

use csv_marks::Mark;
use rules::answers::Refusal;
use timetable::reader;
use timetable_row::line::Line;
use timetable_row::number::Number;
use timetable_row::{line, number};

// The line is over: its last number is closed.
fn close_row(row: Line, unclosed: Number, h: u32, entries: &mut [u32]) -> Line
    ensures { RowClosed h row unclosed entries.old result }
{
    if number::is_empty(unclosed) {
        return line::stopped(row, Refusal::ROW_FORM);
    }
    if row.slot != line::LAST {
        return line::stopped(row, Refusal::ROW_FORM);
    }
    timetable::row::entry(row, number::value(unclosed), h, entries)
}

// A line as it stands in the text, with its quotes and its CR.
pub fn read_row(bytes: &[u8], h: u32) -> Line
    requires { Alone h bytes.now }
    ensures { SaidOf h (form_of (less_return bytes.now)) result }
{
    let mut legs = [0u32; 1];
    let mut entries = [0u32; 1];
    let begun = reader::first_line();
    let read = reader::run_lines(
        begun,
        Number::Empty,
        Mark::Bare,
        0,
        bytes,
        0,
        h,
        &mut legs,
        &mut entries,
    );
    let row = read.line;
    let unclosed = read.number;
    let mark = read.mark;
    if row.fault.is_some() {
        return row;
    }
    if csv_marks::may_end(mark) {
        return close_row(row, unclosed, h, &mut entries);
    }
    line::stopped(row, Refusal::ROW_FORM)
}
