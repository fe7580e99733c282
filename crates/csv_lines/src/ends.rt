// Where a line ends: lines are long, so some bytes are looked at together.
ghost use Rattle.std.specs.Prelude.{◌≡◌, true, ◌+◌, drop};
ghost use Rattle.rules.specs.Bytes.{line_feed};
ghost use Rattle.text_read.specs.Places.{up_to};
ghost use Rattle.csv_lines.specs.Clear.{Clear};

use crate::LINE_FEED;
use text_read::pieces;

const TOGETHER: usize = 16;

// Whether so many bytes stand from a place on, and no LF is among them.
fn clear_at(text: &[u8], at: usize) -> bool
    ensures { result ≡ true → Clear text.now at }
{
    if text.len() < TOGETHER {
        return false;
    }
    if text.len() - TOGETHER < at {
        return false;
    }
    let mut clear = true;
    for k in 0..TOGETHER {
        clear &= text[at + k] != LINE_FEED;
    }
    clear
}

// The place of the first LF from a place on, or the length where there is none.
pub fn line_end(text: &[u8], from: usize) -> usize
    ensures { result ≡ from + up_to line_feed (drop from text.now) }
{
    let mut at = from;
    // Kept (no plainer): how many turns there are shows only from what each has looked at.
    while clear_at(text, at) {
        at += TOGETHER;
    }
    pieces::find(text, LINE_FEED, at)
}
