// Whole numbers of a row.
ghost use Rattle.std.specs.Prelude.{◌≡◌, min};
ghost use Rattle.text_read.specs.Held.{past_id};
ghost use Rattle.duties_fields.specs.Fields.{content_in};
ghost use Rattle.duties_row.specs.Rowed.{held_in, is_whole, value_of, is_time, has_wholes, in_range};

use duties_fields::fields;
use rules::sizes::{Column, Event, Id};
use text_read::numbers;
use text_read::numbers::Unread;

fn is_whole(s: &[u8]) -> bool
    ensures { result ≡ is_whole s.now }
{
    match numbers::read_whole(s) {
        Ok(_) | Err(Unread::Beyond) => true,
        Err(Unread::Malformed) => false,
    }
}

// The number, or one past the greatest id; 0 where there is none.
fn value(s: &[u8]) -> u32
    ensures { result ≡ min (value_of s.now) past_id }
{
    match numbers::read_whole(s) {
        Ok(v) => v,
        Err(Unread::Beyond) => Id::MOST + 1,
        Err(Unread::Malformed) => 0,
    }
}

fn is_time(s: &[u8]) -> bool
    ensures { result ≡ is_time s.now }
{
    value(s) <= Event::MOST_TIME
}

pub fn value_at(line: &[u8], k: usize) -> u32
    ensures { result ≡ held_in k line.now }
{
    value(fields::content_at(line, k))
}

fn whole_at(line: &[u8], k: usize) -> bool
    ensures { result ≡ is_whole (content_in k line.now) }
{
    is_whole(fields::content_at(line, k))
}

fn time_at(line: &[u8], k: usize) -> bool
    ensures { result ≡ is_time (content_in k line.now) }
{
    is_time(fields::content_at(line, k))
}

pub fn has_wholes(line: &[u8]) -> bool
    ensures { result ≡ has_wholes line.now }
{
    whole_at(line, Column::SEQ) && whole_at(line, Column::START) && whole_at(line, Column::END)
}

pub fn in_range(line: &[u8]) -> bool
    ensures { result ≡ in_range line.now }
{
    time_at(line, Column::SEQ) && time_at(line, Column::START) && time_at(line, Column::END)
}
