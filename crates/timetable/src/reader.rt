// A timetable's text, whole or in parts: a reader is started, fed and finished.
ghost use Rattle.std.specs.Prelude.{◌≡◌, ◌+◌, ◌≤◌, length};
ghost use Rattle.rules.specs.Limits.{most_text};
ghost use Rattle.timetable_row.specs.declared.number.Number.TheVariants.{Empty};
ghost use Rattle.timetable.specs.Held.{tables};
ghost use Rattle.timetable.specs.Promise.{ReadAs};
ghost use Rattle.csv_marks.specs.declared.Mark.TheVariants.{Bare};
ghost use Rattle.timetable.specs.Text.{first_line, begun_at, Placed, Opens, Ran, Lined, Fed, Finished};

use crate::{entries, marked, row};
use csv_marks::Mark;
use rules::answers::{Fault, Refusal};
use rules::sizes::{Leg, Text};
use timetable_row::line::Line;
use timetable_row::number::Number;
use timetable_row::{line, number};

// After so many bytes, so many of them the header's: the mark, the open number, and the rest of the state.
#[derive(Clone, Copy)]
pub struct Reader {
    pub read: usize,
    pub head: usize,
    pub mark: Mark,
    pub number: Number,
    pub line: Line,
}

// A row, and the place up to which a part is read.
#[derive(Clone, Copy)]
pub struct Run {
    pub next: usize,
    pub number: Number,
    pub line: Line,
}

// How many rows a text has, and how many configurations they list.
#[derive(Clone, Copy)]
pub struct Rows {
    pub rows: u32,
    pub configurations: u32,
}

pub fn first_line() -> Line
    ensures { result ≡ first_line }
{
    Line {
        fault: None,
        place: 0,
        slot: 0,
        numbers: [0; line::LAST],
        entries: 0,
        nominal: 0,
        wide: false,
        rows: 0,
        configurations: 0,
        above: 0,
    }
}

pub fn start() -> Reader
    ensures { (result.read ≡ 0) × (result.head ≡ 0) × (result.mark ≡ Bare) × (result.number ≡ Empty) × (result.line ≡ first_line) }
{
    Reader {
        read: 0,
        head: 0,
        mark: Mark::Bare,
        number: Number::Empty,
        line: first_line(),
    }
}

// Plain bytes of a part, which follows `gone` bytes, from a place on: the digits of a number in one loop, the byte that closes it, and then the entries that follow whole.
fn run_plain(
    before: Line,
    unclosed: Number,
    mark: Mark,
    gone: usize,
    part: &[u8],
    from: usize,
    h: u32,
    legs: &mut [u32],
    configurations: &mut [u32],
) -> Run
    requires { Opens gone part.now from before mark }
    ensures { Ran h before unclosed mark gone part.now from result (tables legs.old configurations.old) (tables legs.new configurations.new) }
{
    let mut line = before;
    let mut number = unclosed;
    let mut i = from;
    // Kept (no plainer): a turn goes on by what it has read, which no range does.
    while i < part.len() {
        let taken = number::take(part, i, number);
        let next = taken.next;
        number = taken.number;
        if part.len() <= next {
            return Run {
                next: part.len(),
                number,
                line,
            };
        }
        let b = part[next];
        if csv_marks::plain(mark, b) {
            let at = (gone + next) as u32;
            line = row::sign(line, number, b, at, h, legs, configurations);
            number = Number::Empty;
            if line.fault.is_some() {
                return Run {
                    next: part.len(),
                    number,
                    line,
                };
            }
            let list = entries::run_list(line, part, next + 1, h, configurations);
            line = list.line;
            i = list.next;
        } else {
            return Run { next, number, line };
        }
    }
    Run {
        next: i,
        number,
        line,
    }
}

// The rows of a part up to a byte that is not plain, and past the whole ids in quotes that begin with it.
pub fn run_rows(
    before: Line,
    unclosed: Number,
    mark: Mark,
    gone: usize,
    part: &[u8],
    from: usize,
    h: u32,
    legs: &mut [u32],
    configurations: &mut [u32],
) -> Run
    requires { Placed gone part.now from before }
    ensures { Ran h before unclosed mark gone part.now from result (tables legs.old configurations.old) (tables legs.new configurations.new) }
{
    if !csv_marks::contents(mark) {
        return Run {
            next: from,
            number: unclosed,
            line: before,
        };
    }
    let ran = run_plain(
        before,
        unclosed,
        mark,
        gone,
        part,
        from,
        h,
        legs,
        configurations,
    );
    if part.len() <= ran.next {
        return ran;
    }
    let quoted = entries::run_quoted(ran.line, ran.number, mark, part, ran.next);
    Run {
        next: quoted.next,
        number: ran.number,
        line: quoted.line,
    }
}

// The rows of a part: plain bytes, and then one that is not. Where that one goes to the contents, behind quotes or a CR, the mark alone moves and the plain bytes begin with it: so `row::sign` has one caller.
pub fn run_lines(
    before: Line,
    unclosed: Number,
    first: Mark,
    gone: usize,
    part: &[u8],
    from: usize,
    h: u32,
    legs: &mut [u32],
    configurations: &mut [u32],
) -> Reader
    requires { Placed gone part.now from before }
    ensures { Lined h before unclosed first gone part.now from result (tables legs.old configurations.old) (tables legs.new configurations.new) }
{
    let read = gone + part.len();
    let head = Leg::HEADER_LENGTH;
    let mut line = before;
    let mut number = unclosed;
    let mut mark = first;
    let mut i = from;
    // Kept (no plainer): a turn goes on by what it has read, which no range does.
    while i < part.len() {
        let ran = run_rows(line, number, mark, gone, part, i, h, legs, configurations);
        let next = ran.next;
        line = ran.line;
        number = ran.number;
        if part.len() <= next {
            return Reader {
                read,
                head,
                mark,
                number,
                line,
            };
        }
        let Some(moved) = csv_marks::moved(mark, part[next], marked::begins(line, number)) else {
            line = line::stopped(line, Refusal::ROW_FORM);
            return Reader {
                read,
                head,
                mark,
                number,
                line,
            };
        };
        i = next + moved.step;
        mark = marked::freed(moved.mark, part, i);
    }
    Reader {
        read,
        head,
        mark,
        number,
        line,
    }
}

// After the header the first row has its place.
fn begun(line: Line, head: usize, at: u32) -> Line
    ensures { result ≡ begun_at line head at }
{
    if Leg::HEADER_LENGTH <= head {
        return line;
    }
    Line { place: at, ..line }
}

// A part of a text, however it is cut.
pub fn feed(
    reader: Reader,
    part: &[u8],
    h: u32,
    legs: &mut [u32],
    configurations: &mut [u32],
) -> Reader
    requires { reader.read + length part.now ≤ most_text }
    ensures { Fed h reader part.now result (tables legs.old configurations.old) (tables legs.new configurations.new) }
{
    let read = reader.read;
    let mark = reader.mark;
    let number = reader.number;
    let line = reader.line;
    let all = read + part.len();
    if line.fault.is_some() {
        return Reader {
            read: all,
            head: reader.head,
            mark,
            number,
            line,
        };
    }
    let Ok(headed) = csv_header::header(part, reader.head, mark) else {
        let wrong = Line {
            fault: Some(Refusal::HEADER),
            place: 0,
            ..line
        };
        return Reader {
            read: all,
            head: reader.head,
            mark,
            number,
            line: wrong,
        };
    };
    if headed.head < Leg::HEADER_LENGTH {
        return Reader {
            read: all,
            head: headed.head,
            mark: headed.mark,
            number,
            line,
        };
    }
    let first = begun(line, reader.head, (read + headed.next) as u32);
    run_lines(
        first,
        number,
        headed.mark,
        read,
        part,
        headed.next,
        h,
        legs,
        configurations,
    )
}

// The text is over.
pub fn finish(reader: Reader) -> Result<Rows, Fault>
    ensures { Finished reader result }
{
    let line = reader.line;
    let place = line.place;
    if let Some(number) = line.fault {
        return Err(Fault { number, place });
    }
    if reader.head < Leg::HEADER_LENGTH {
        return Err(Fault {
            number: Refusal::HEADER,
            place: 0,
        });
    }
    if place as usize != reader.read {
        return Err(Fault {
            number: Refusal::ROW_FORM,
            place,
        });
    }
    Ok(Rows {
        rows: line.rows,
        configurations: line.configurations,
    })
}

// A whole text.
pub fn read_timetable(
    text: &[u8],
    h: u32,
    legs: &mut [u32],
    configurations: &mut [u32],
) -> Result<Rows, Fault>
    ensures { ReadAs h text.now (tables legs.old configurations.old) result (tables legs.new configurations.new) }
{
    if Text::MOST < text.len() {
        return Err(Fault {
            number: Refusal::TOO_LONG,
            place: 0,
        });
    }
    let begun = start();
    let fed = feed(begun, text, h, legs, configurations);
    finish(fed)
}
