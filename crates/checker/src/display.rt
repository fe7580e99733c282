// The row at a refusal's file and place.
ghost use Rattle.std.specs.Prelude.{◌≡◌};
ghost use Rattle.rules.specs.Display.{starts_row, row_at};

use csv_lines::rows;

// Whether a row below the header starts at `place`.
pub fn starts_row(s: &[u8], place: usize) -> bool
    ensures { result ≡ starts_row s.now place }
{
    rows::starts_row(s, place)
}

// The row that starts there, without its LF or CR LF; empty where none does.
pub fn row_at<'a>(draft: &'a [u8], solution: &'a [u8], file: u8, place: u32) -> &'a [u8]
    ensures { result.now ≡ row_at draft.now solution.now file place }
{
    rows::row_at(draft, solution, file, place)
}
