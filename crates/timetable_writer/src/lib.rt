// The header and the rows of a timetable, written out of the draft's tables. `merge_text` puts the chosen nominal into each row.
#![tactic(auto)]

ghost use Rattle.std.specs.Prelude.{◌++◌, ◌∷◌, []};
ghost use Rattle.rules.specs.Bytes.{spelled};
ghost use Rattle.rules.specs.Timetable.{timetable_header};
ghost use Rattle.rules.specs.Merge.{spelled_configuration, spelled_row};
ghost use Rattle.text_write.specs.Written.{Written};
ghost use Rattle.timetable_writer.specs.Rows.{spelled_ids, spelled_entry, spelled_list, list_from, row_of};

use rules::sizes::{Configuration, Leg};

pub fn put_header(buffer: &mut [u8], at: usize) -> usize
    ensures { Written buffer.old at timetable_header buffer.new result }
{
    text_write::put_bytes(buffer, at, &Leg::HEADER)
}

// A number and the sign after it.
fn put_ended(buffer: &mut [u8], at: usize, n: u32, sign: u8) -> usize
    ensures { Written buffer.old at (spelled n ++ (sign ∷ [])) buffer.new result }
{
    let after = text_write::put_number(buffer, at, n);
    text_write::put_byte(buffer, after, sign)
}

// `d_t_p`.
pub fn put_configuration(buffer: &mut [u8], at: usize, c: Configuration) -> usize
    ensures { Written buffer.old at (spelled_configuration c) buffer.new result }
{
    let travel = put_ended(buffer, at, c.departure, b'_');
    let profile = put_ended(buffer, travel, c.travel, b'_');
    text_write::put_number(buffer, profile, c.profile)
}

// Entry `j` of a list: a space stands before each but the first.
fn put_entry(buffer: &mut [u8], at: usize, j: usize, c: Configuration) -> usize
    ensures { Written buffer.old at (spelled_entry j c) buffer.new result }
{
    if j == 0 {
        return put_configuration(buffer, at, c);
    }
    let after = text_write::put_byte(buffer, at, b' ');
    put_configuration(buffer, after, c)
}

// As many configurations of the table as `count` says, from `first` on, one space between.
pub fn put_list(
    buffer: &mut [u8],
    at: usize,
    configurations: &[u32],
    first: u32,
    count: u32,
) -> usize
    ensures { Written buffer.old at (spelled_list (list_from configurations.now first count)) buffer.new result }
{
    let mut place = at;
    for j in 0..count as usize {
        let c = tables_views::configuration_at(configurations, first as usize + j);
        place = put_entry(buffer, place, j, c);
    }
    place
}

// The five ids of a row, a comma after each.
fn put_ids(buffer: &mut [u8], at: usize, leg: Leg) -> usize
    ensures { Written buffer.old at (spelled_ids leg) buffer.new result }
{
    let train = put_ended(buffer, at, leg.id, b',');
    let track = put_ended(buffer, train, leg.train, b',');
    let start = put_ended(buffer, track, leg.track, b',');
    let end = put_ended(buffer, start, leg.start, b',');
    put_ended(buffer, end, leg.end, b',')
}

// A row with this nominal and the draft's list, and its LF.
pub fn put_row(
    buffer: &mut [u8],
    at: usize,
    leg: Leg,
    nominal: Configuration,
    configurations: &[u32],
) -> usize
    ensures { Written buffer.old at (spelled_row (row_of configurations.now leg nominal)) buffer.new result }
{
    let chosen = put_ids(buffer, at, leg);
    let comma = put_configuration(buffer, chosen, nominal);
    let list = text_write::put_byte(buffer, comma, b',');
    let end = put_list(buffer, list, configurations, leg.first, leg.count);
    text_write::put_byte(buffer, end, b'\n')
}
