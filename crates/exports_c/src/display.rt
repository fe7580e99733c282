// The row at a refusal's file and place, for C.
ghost use Rattle.std.specs.Prelude.{◌≡◌, length};
ghost use Rattle.rules.specs.Display.{row_at};
ghost use Rattle.csv_lines.specs.Starts.{start_at};
ghost use Rattle.exports_numbers.specs.Numbers.{row_numbers};

use exports::display;
use exports_numbers::Numbers;

#[unsafe(no_mangle)]
pub extern "C" fn wagontulip_row<'a>(
    draft: &'a [u8],
    solution: &'a [u8],
    file: u8,
    place: u32,
    answer: &mut Numbers,
)
    ensures { answer.new ≡ row_numbers (start_at draft.now solution.now file place) (length (row_at draft.now solution.now file place)) }
{
    display::wagontulip_row(draft, solution, file, place, answer);
}
