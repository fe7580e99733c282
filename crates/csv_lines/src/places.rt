// Where a row of a text starts, and a refusal that lies there.
ghost use Rattle.std.specs.Prelude.{◌≡◌, ◌≤◌, length};
ghost use Rattle.rules.specs.Limits.{most_text};
ghost use Rattle.rules.specs.Answers.{refusal};
ghost use Rattle.rules.specs.Rows.{place_of_row};

use crate::LINE_FEED;
use rules::answers::Refusal;

// The header is a text's first line, so a row starts behind one line feed more than there are rows before it.
pub fn place_of_row(text: &[u8], row: usize) -> usize
    ensures { result ≡ place_of_row text.now row }
{
    let mut left = row;
    for (at, b) in text.iter().enumerate() {
        if *b == LINE_FEED {
            if left == 0 {
                return at + 1;
            }
            left -= 1;
        }
    }
    text.len() + 1
}

// A row of a text of lawful length is refused at its place.
pub fn row_refusal(number: u8, file: u8, text: &[u8], row: usize) -> Refusal
    requires { length text.now ≤ most_text }
    ensures { result ≡ refusal number file (place_of_row text.now row) }
{
    let place = place_of_row(text, row);
    Refusal::new(number, file, place as u32)
}
