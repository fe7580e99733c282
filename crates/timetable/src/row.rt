// A byte of a row, or a whole entry of its list: a number is closed, an entry is held and stored, and a row that is over is judged.
ghost use Rattle.std.specs.Prelude.{◌≡◌, ◌<◌};
ghost use Rattle.rules.specs.Limits.{most_text};
ghost use Rattle.timetable_row.specs.Slots.{last_slot};
ghost use Rattle.timetable.specs.Held.{open_entry, kept_in, Entered, Closed, tables};
ghost use Rattle.timetable.specs.Ended.{Ended};
ghost use Rattle.timetable.specs.Text.{Signed};

use rules::answers::Refusal;
use rules::sizes::Leg;
use timetable_row::line::Line;
use timetable_row::number::Number;
use timetable_row::{line, number};

// An entry is closed by its third number.
pub fn entry(line: Line, p: u32, h: u32, configurations: &mut [u32]) -> Line
    ensures { Entered h line p result configurations.old configurations.new }
{
    let numbers = line.numbers;
    let d = numbers[line::ENTRY];
    let t = numbers[line::ENTRY_TRAVEL];
    let entries = line.entries;
    let mut out = line;
    out.slot = line::ENTRY;
    out.wide = line::or_wide(line.wide, d, t, p, h);
    if Leg::MOST_CONFIGURATIONS < entries {
        return out;
    }
    out.nominal = line::nominal_after(line.nominal, entries, line::is_nominal(numbers, p));
    out.entries = entries + 1;
    line::store(
        configurations,
        line.configurations as usize + entries as usize,
        d,
        t,
        p,
    );
    out
}

// A whole entry.
pub fn listed(line: Line, d: u32, t: u32, p: u32, h: u32, configurations: &mut [u32]) -> Line
    ensures { Entered h (open_entry line d t) p result configurations.old configurations.new }
{
    let mut numbers = line.numbers;
    numbers[line::ENTRY] = d;
    numbers[line::ENTRY_TRAVEL] = t;
    let mut out = line;
    out.numbers = numbers;
    out.slot = line::LAST;
    entry(out, p, h, configurations)
}

// A number before the list, or one of the first two of an entry, is kept.
pub fn kept(line: Line, n: u32) -> Line
    requires { line.slot < last_slot }
    ensures { result ≡ kept_in line n }
{
    let slot = line.slot;
    let mut numbers = line.numbers;
    numbers[slot] = n;
    let mut out = line;
    out.numbers = numbers;
    out.slot = slot + 1;
    out
}

// A number is closed by a byte that is no LF.
fn close(line: Line, n: u32, b: u8, h: u32, configurations: &mut [u32]) -> Line
    ensures { Closed h line n b result configurations.old configurations.new }
{
    let slot = line.slot;
    if b != line::separator(slot) {
        return line::stopped(line, Refusal::ROW_FORM);
    }
    if line::LAST <= slot {
        return entry(line, n, h, configurations);
    }
    kept(line, n)
}

// The LF at `at` ends the row.
fn ended(line: Line, n: u32, at: u32, h: u32, legs: &mut [u32], configurations: &mut [u32]) -> Line
    requires { at < most_text }
    ensures { Ended h line n at result (tables legs.old configurations.old) (tables legs.new configurations.new) }
{
    if line.slot != line::LAST {
        return line::stopped(line, Refusal::ROW_FORM);
    }
    let whole = entry(line, n, h, configurations);
    if let Some(number) = timetable_faults::fault(whole, h, legs, configurations.len()) {
        return line::stopped(whole, number);
    }
    let made = line::leg_of(whole);
    line::store_made(legs, whole.rows as usize, made);
    line::next_row(whole, at)
}

// A byte that the open number does not take.
pub fn sign(
    line: Line,
    number: Number,
    b: u8,
    at: u32,
    h: u32,
    legs: &mut [u32],
    configurations: &mut [u32],
) -> Line
    requires { at < most_text }
    ensures { Signed h line number b at result (tables legs.old configurations.old) (tables legs.new configurations.new) }
{
    if number::is_empty(number) {
        return line::stopped(line, Refusal::ROW_FORM);
    }
    let n = number::value(number);
    if b == b'\n' {
        return ended(line, n, at, h, legs, configurations);
    }
    close(line, n, b, h, configurations)
}
