// The row at a refusal's file and place, for C: where the part starts, and its length.
ghost use Rattle.std.specs.Prelude.{◌≡◌, length};
ghost use Rattle.rules.specs.Display.{row_at};
ghost use Rattle.csv_lines.specs.Starts.{start_at};
ghost use Rattle.exports_numbers.specs.Numbers.{row_numbers};

use csv_lines::rows;
use exports_numbers::{Numbers, answers};

pub fn wagontulip_row<'a>(
    draft: &'a [u8],
    solution: &'a [u8],
    file: u8,
    place: u32,
    answer: &mut Numbers,
)
    ensures { answer.new ≡ row_numbers (start_at draft.now solution.now file place) (length (row_at draft.now solution.now file place)) }
{
    let start = rows::start_at(draft, solution, file, place);
    let row = rows::row_at(draft, solution, file, place);
    *answer = answers::of_row(start, row.len());
}
