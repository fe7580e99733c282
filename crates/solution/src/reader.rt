// A solution's text, which arrives whole: its header, then line by line.
ghost use Rattle.std.specs.Prelude.{◌≡◌, ◌*◌, ◌≤◌, length};
ghost use Rattle.rules.specs.Limits.{configuration_width};
ghost use Rattle.rules.specs.Bytes.{line_feed, split_on};
ghost use Rattle.solution.specs.Promise.{Able, ChoicesRead};
ghost use Rattle.solution.specs.Whole.{head_end, Headed, RowsRead, unpacked};

use crate::after;
use csv_lines::ends;
use csv_marks::Mark;
use rules::answers::{Fault, Refusal};
use rules::sizes::{Choice, Configuration, Leg, Text};
use solution_row::draft;
use timetable::reader;
use timetable_row::line;

// Where the header ends and the first row begins; 0 where the header differs.
// Kept (law `end_in` of `csv_header`): it says 0 there too.
fn head_end(text: &[u8]) -> usize
    ensures { result ≡ head_end (split_on line_feed text.now) }
{
    let Ok(headed) = csv_header::header(text, 0, Mark::Bare) else {
        return 0;
    };
    if headed.head < Leg::HEADER_LENGTH {
        return 0;
    }
    headed.next
}

// The rows after the header, from a place on. The table holds ids and choices, packed.
fn read_rows(
    text: &[u8],
    from: usize,
    h: u32,
    legs: &[u32],
    n: usize,
    choices: &mut [u32],
) -> Result<u32, Fault>
    requires { Headed h text.now legs.now n from }
    ensures { RowsRead h text.now legs.now n from choices.old result choices.new }
{
    let mut line = reader::first_line();
    let mut differing = draft::none_differs();
    let mut i = from;
    // Kept (no plainer): a turn goes on by what it has read, which no range does.
    while i < text.len() {
        let place = i as u32;
        let e = ends::line_end(text, i);
        if text.len() <= e {
            return Err(Fault {
                number: Refusal::ROW_FORM,
                place,
            });
        }
        let row = line.rows as usize;
        let fresh = draft::next_id(differing, legs, n, row);
        line = after::turn(&text[i..e], h, line, fresh, choices);
        if let Some(number) = line.fault {
            return Err(Fault { number, place });
        }
        let numbers = line.numbers;
        differing = draft::compared_with(differing, numbers, legs, n, row, place);
        i = e + 1;
    }
    draft::compared_answer(differing, line.rows, n, text.len())
}

// The choices of n rows, out of ids and choices.
fn unpack(choices: &mut [u32], n: usize)
    requires { n * configuration_width ≤ length choices.old }
    ensures { choices.new ≡ unpacked n choices.old }
{
    for i in 0..n {
        let from = i * Choice::WIDTH;
        let times = choices[from + after::TIMES_AT];
        let profile = choices[from + Configuration::PROFILE_AT];
        line::store(
            choices,
            i,
            times / after::TRAVELS,
            times % after::TRAVELS,
            profile,
        );
    }
}

// A whole text, against the n rows of a draft's leg table.
pub fn read_choices(
    text: &[u8],
    h: u32,
    legs: &[u32],
    n: usize,
    choices: &mut [u32],
) -> Result<u32, Fault>
    requires { Able h legs.now n }
    ensures { ChoicesRead h text.now legs.now n choices.old result choices.new }
{
    if Text::MOST < text.len() {
        return Err(Fault {
            number: Refusal::TOO_LONG,
            place: 0,
        });
    }
    let from = head_end(text);
    if from == 0 {
        return Err(Fault {
            number: Refusal::HEADER,
            place: 0,
        });
    }
    let rows = read_rows(text, from, h, legs, n, choices)?;
    unpack(choices, rows as usize);
    Ok(rows)
}
