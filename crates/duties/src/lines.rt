// A line that an LF ended, less one CR just before the LF.
ghost use Rattle.std.specs.Prelude.{◌≡◌};
ghost use Rattle.rules.specs.Bytes.{less_return};
ghost use Rattle.duties.specs.Turns.{line_at};

use text_read::pieces;

pub const LINE_FEED: u8 = b'\n';

const RETURN: u8 = b'\r';

pub fn less_return<'a>(line: &'a [u8]) -> &'a [u8]
    ensures { result.now ≡ less_return line.now }
{
    let all = line.len();
    if all == 0 {
        return line;
    }
    let last = all - 1;
    if line[last] == RETURN {
        return &line[..last];
    }
    line
}

// The line from a place on, less its CR.
pub fn line_at<'a>(text: &'a [u8], place: usize) -> &'a [u8]
    ensures { result.now ≡ line_at text.now place }
{
    if text.len() < place {
        return &[];
    }
    let end = pieces::find(text, LINE_FEED, place);
    less_return(&text[place..end])
}
