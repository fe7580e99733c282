// Names, in document 01's words. Those of one sort stand in one text, a line each, and are found by their number.
ghost use Rattle.std.specs.Prelude.{◌≡◌, get_or, []};
ghost use Rattle.rules.specs.Bytes.{split_on, line_feed};
ghost use Rattle.text_write.specs.Written.{Written};
ghost use Rattle.say_words.specs.Names.{kind_names, test_names, list_names, formula_of, meanings, file_names};

use text_read::pieces;

const LINE_FEED: u8 = b'\n';

// A kind has two inequalities at most.
const INEQUALITIES: usize = 2;

// Line `k` of a text, counted from 0; empty where there is none.
pub fn line<'a>(s: &'a [u8], k: usize) -> &'a [u8]
    ensures { result.now ≡ get_or (split_on line_feed s.now) k [] }
{
    let mut start = 0;
    for i in 0..k {
        let end = pieces::find(s, LINE_FEED, start);
        if s.len() <= end {
            return &s[0..0];
        }
        start = end + 1;
    }
    let end = pieces::find(s, LINE_FEED, start);
    &s[start..end]
}

fn put_line(buffer: &mut [u8], at: usize, s: &[u8], k: usize) -> usize
    ensures { Written buffer.old at (get_or (split_on line_feed s.now) k []) buffer.new result }
{
    text_write::put_bytes(buffer, at, line(s, k))
}

// A kind in words.
pub fn put_kind(buffer: &mut [u8], at: usize, kind: u8) -> usize
    ensures { Written buffer.old at (get_or kind_names kind []) buffer.new result }
{
    put_line(
        buffer,
        at,
        b"choice not offered\n\
          headway time\n\
          single-track headway\n\
          dwell time\n\
          terminal turnaround\n\
          connection",
        kind as usize,
    )
}

// What is tested of a kind: one of these.
pub fn put_test(buffer: &mut [u8], at: usize, kind: u8) -> usize
    ensures { Written buffer.old at (get_or test_names kind []) buffer.new result }
{
    put_line(
        buffer,
        at,
        b"choice\n\
          headway time\n\
          single-track headway\n\
          dwell time\n\
          terminal turnaround\n\
          connection",
        kind as usize,
    )
}

// The list of constraints.json that holds a kind's records.
pub fn put_list(buffer: &mut [u8], at: usize, kind: u8) -> usize
    ensures { Written buffer.old at (get_or list_names kind []) buffer.new result }
{
    put_line(
        buffer,
        at,
        b"\n\
          headway_time_constraints\n\
          single_track_headway_constraints\n\
          dwell_time_constraints\n\
          terminal_turnaround_constraints\n\
          connection_constraints",
        kind as usize,
    )
}

// An inequality, 1 or 2, of a kind.
pub fn put_formula(buffer: &mut [u8], at: usize, kind: u8, inequality: u8) -> usize
    ensures { Written buffer.old at (formula_of kind inequality) buffer.new result }
{
    put_line(
        buffer,
        at,
        b"\n\n\n\
          d1+h <= d2\n\
          d1+t1+h <= d2+t2\n\
          d1+t1 <= d2\n\
          \n\
          d1+t1+w <= d2\n\
          \n\
          d1+t1+w <= d2\n\
          \n\
          x+a <= d2\n\
          d2 <= x+b",
        INEQUALITIES * kind as usize + inequality as usize,
    )
}

// What a refusal's number is given for.
pub fn put_meaning(buffer: &mut [u8], at: usize, number: u8) -> usize
    ensures { Written buffer.old at (get_or meanings number []) buffer.new result }
{
    put_line(
        buffer,
        at,
        b"\n\
          H out of range\n\
          text too long\n\
          header differs\n\
          CSV row breaks its form\n\
          number out of range, or departure plus travel past H\n\
          a count limit is passed\n\
          id already seen; a track listed twice in any subnets\n\
          nominal not in its list\n\
          JSON form broken, or a value of the wrong type\n\
          unknown list, key or connection type\n\
          list or key repeated, or missing\n\
          leg or profile does not exist\n\
          profile's sample count is not t\n\
          solution's first five columns differ from the draft's, row by row, or the row count does\n\
          a leg's track is in no subnet\n\
          lent room too short\n\
          two choices of a leg have unequal travel times\n\
          \n\
          \n\
          \n\
          an edition that is not known",
        number as usize,
    )
}

pub fn put_file(buffer: &mut [u8], at: usize, file: u8) -> usize
    ensures { Written buffer.old at (get_or file_names file []) buffer.new result }
{
    put_line(
        buffer,
        at,
        b"no file\n\
          timetable\n\
          profiles\n\
          constraints\n\
          solution\n\
          second solution",
        file as usize,
    )
}
