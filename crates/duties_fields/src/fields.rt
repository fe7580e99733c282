// Field k of a line, from 0.
ghost use Rattle.std.specs.Prelude.{◌≡◌};
ghost use Rattle.rules.specs.Bytes.{comma, split_on, start_of};
ghost use Rattle.rules.specs.Duties.{field_in, place_in};
ghost use Rattle.duties_fields.specs.Fields.{content_in, is_ten};

use crate::{COMMA, contents};
use rules::sizes::Column;
use text_read::pieces;

// Where it starts: past the end where there is none.
pub fn start_of(line: &[u8], k: usize) -> usize
    ensures { result ≡ start_of k (split_on comma line.now) }
{
    let mut at = 0;
    for _ in 0..k {
        let end = pieces::find(line, COMMA, at);
        if line.len() <= end {
            return line.len() + 1;
        }
        at = end + 1;
    }
    at
}

pub fn field<'a>(line: &'a [u8], k: usize) -> &'a [u8]
    ensures { result.now ≡ field_in k line.now }
{
    let at = start_of(line, k);
    if line.len() < at {
        return &[];
    }
    let end = pieces::find(line, COMMA, at);
    &line[at..end]
}

// Its content.
pub fn content_at<'a>(line: &'a [u8], k: usize) -> &'a [u8]
    ensures { result.now ≡ content_in k line.now }
{
    contents::content(field(line, k))
}

// Where its content starts.
pub fn place_at(line: &[u8], k: usize) -> usize
    ensures { result ≡ place_in k line.now }
{
    let at = start_of(line, k);
    if line.len() < at {
        return at;
    }
    if contents::mark(field(line, k)) == 0 {
        return at;
    }
    at + 1
}

// Ten fields, each with a content.
pub fn is_ten(line: &[u8]) -> bool
    ensures { result ≡ is_ten line.now }
{
    let mut at = 0;
    for n in 0..Column::ALL {
        let end = pieces::find(line, COMMA, at);
        if !contents::is_content(&line[at..end]) {
            return false;
        }
        if line.len() <= end {
            return n + 1 == Column::ALL;
        }
        at = end + 1;
    }
    false
}
