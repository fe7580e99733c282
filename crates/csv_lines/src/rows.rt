// Rows by their places. "For display, the row at a refusal's file and place is handed back as a part of whichever text holds it" (document 01).
ghost use Rattle.std.specs.Prelude.{◌≡◌, ◌+◌, ◌≤◌, length, drop};
ghost use Rattle.rules.specs.Display.{starts_row, shown_of, row_in, row_at};
ghost use Rattle.csv_lines.specs.Starts.{start_in, start_at};

use crate::{LINE_FEED, RETURN, ends};
use rules::answers::File;

// Whether a row below the header starts at `place`.
pub fn starts_row(s: &[u8], place: usize) -> bool
    ensures { result ≡ starts_row s.now place }
{
    if place == 0 {
        return false;
    }
    if s.len() <= place {
        return false;
    }
    let before = place - 1;
    s[before] == LINE_FEED
}

// Where what is shown of a row ends: before its LF, and before one CR just before that.
fn shown_end(s: &[u8], place: usize) -> usize
    requires { place ≤ length s.now }
    ensures { result ≡ place + length (shown_of (drop place s.now)) }
{
    let end = ends::line_end(s, place);
    if s.len() <= end {
        return end;
    }
    if end <= place {
        return end;
    }
    let last = end - 1;
    if s[last] == RETURN {
        return last;
    }
    end
}

// The row that starts at `place`, without its LF or CR LF; empty where none does.
fn row_in<'a>(s: &'a [u8], place: usize) -> &'a [u8]
    ensures { result.now ≡ row_in s.now place }
{
    if starts_row(s, place) {
        let end = shown_end(s, place);
        return &s[place..end];
    }
    &s[0..0]
}

#[tactic(auto, unfolding(rules::specs::Display::row_at))]
pub fn row_at<'a>(draft: &'a [u8], solution: &'a [u8], file: u8, place: u32) -> &'a [u8]
    ensures { result.now ≡ row_at draft.now solution.now file place }
{
    let at = place as usize;
    match file {
        File::TIMETABLE => row_in(draft, at),
        File::SOLUTION => row_in(solution, at),
        _ => &draft[0..0],
    }
}

// Where that row starts; 0 where none does.
fn start_in(s: &[u8], place: usize) -> usize
    ensures { result ≡ start_in s.now place }
{
    if starts_row(s, place) {
        return place;
    }
    0
}

pub fn start_at(draft: &[u8], solution: &[u8], file: u8, place: u32) -> usize
    ensures { result ≡ start_at draft.now solution.now file place }
{
    let at = place as usize;
    match file {
        File::TIMETABLE => start_in(draft, at),
        File::SOLUTION => start_in(solution, at),
        _ => 0,
    }
}
