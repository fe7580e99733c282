// Where a field of a row begins, where alone a quote may open; and the mark behind quotes or a CR, which the byte behind them takes back.
ghost use Rattle.std.specs.Prelude.{◌≡◌};
ghost use Rattle.timetable.specs.Text.{field_begins, line_begins, Frees};

use csv_marks::Mark;
use timetable_row::line::Line;
use timetable_row::number::Number;
use timetable_row::{line, number};

fn field_begins(slot: usize, entries: u32) -> bool
    ensures { result ≡ field_begins slot entries }
{
    slot <= line::NOMINAL || (slot == line::ENTRY && entries == 0)
}

// Nothing of the open field is read.
pub fn begins(line: Line, number: Number) -> bool
    ensures { result ≡ line_begins line number }
{
    number::is_empty(number) && field_begins(line.slot, line.entries)
}

// The mark before a byte that the contents take: so a closing quote and what stands behind it are one turn of the loop over rows.
pub fn freed(mark: Mark, part: &[u8], i: usize) -> Mark
    ensures { Frees mark part.now i result }
{
    match part.get(i).copied() {
        Some(b',') => match mark {
            Mark::Behind => Mark::Bare,
            _ => mark,
        },
        Some(b'\n') => match mark {
            Mark::Behind | Mark::Returned => Mark::Bare,
            _ => mark,
        },
        _ => mark,
    }
}
