// Whole entries of a list at once, and whole numbers in quotes: numbers in registers, the row touched at the spaces and commas alone. What is neither is left for the loop over numbers.
ghost use Rattle.std.specs.Prelude.{◌≡◌};
ghost use Rattle.timetable_row.specs.Slots.{entry_slot};
ghost use Rattle.timetable_row.specs.declared.number.Number.TheVariants.{Empty};
ghost use Rattle.csv_marks.specs.declared.Mark.TheVariants.{Bare};
ghost use Rattle.timetable.specs.Entries.{Lists, Begun, Passes};

use crate::row;
use csv_marks::Mark;
use timetable_row::line::Line;
use timetable_row::number::Number;
use timetable_row::{line, number};

// The row after entries, and the place behind the last one's space.
#[derive(Clone, Copy)]
pub struct Listed {
    pub line: Line,
    pub next: usize,
}

// The entries from a place on, as many as stand there whole.
fn run_entries(before: Line, part: &[u8], from: usize, h: u32, configurations: &mut [u32]) -> Listed
    requires { Begun part.now from before × (before.slot ≡ entry_slot) }
    ensures { Lists h before part.now from result configurations.old configurations.new }
{
    let mut line = before;
    let mut next = from;
    // Kept (no plainer): a turn goes on by what it has read, which no range does.
    while let Some(entry) = timetable_entry::entry_at(part, next) {
        line = row::listed(
            line,
            entry.departure,
            entry.travel,
            entry.profile,
            h,
            configurations,
        );
        next = entry.next;
    }
    Listed { line, next }
}

// At an entry's beginning, whole entries are read at once.
pub fn run_list(line: Line, part: &[u8], from: usize, h: u32, configurations: &mut [u32]) -> Listed
    requires { Begun part.now from line }
    ensures { Lists h line part.now from result configurations.old configurations.new }
{
    if line.slot == line::ENTRY {
        return run_entries(line, part, from, h, configurations);
    }
    Listed { line, next: from }
}

// The ids of a row from a place on, as many as stand there whole in quotes.
fn run_ids(before: Line, part: &[u8], from: usize) -> Listed
    requires { Begun part.now from before }
    ensures { Passes before Empty Bare part.now from result }
{
    let mut line = before;
    let mut next = from;
    for _slot in before.slot..line::NOMINAL {
        let Some(id) = timetable_entry::quoted_at(part, next) else {
            break;
        };
        line = row::kept(line, id.number);
        next = id.next;
    }
    Listed { line, next }
}

// Where neither a number nor a quote is open, whole ids in quotes are read at once.
pub fn run_quoted(line: Line, number: Number, mark: Mark, part: &[u8], from: usize) -> Listed
    requires { Begun part.now from line }
    ensures { Passes line number mark part.now from result }
{
    let Mark::Bare = mark else {
        return Listed { line, next: from };
    };
    if number::is_empty(number) {
        return run_ids(line, part, from);
    }
    Listed { line, next: from }
}
