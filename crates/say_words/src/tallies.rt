// How many tests of a kind were made.
ghost use Rattle.text_write.specs.Written.{Written};
ghost use Rattle.say_words.specs.Tallies.{count_text};

use crate::{names, numbers};

// Above one, and for none, a name stands in the plural.
const ONE: u32 = 1;

// `2 choices`, `1 dwell time`.
pub fn put_count(buffer: &mut [u8], at: usize, kind: u8, count: u32) -> usize
    ensures { Written buffer.old at (count_text kind count) buffer.new result }
{
    let space = numbers::put_whole(buffer, at, count as u64);
    let name = text_write::put_byte(buffer, space, b' ');
    let end = names::put_test(buffer, name, kind);
    if count == ONE {
        return end;
    }
    text_write::put_byte(buffer, end, b's')
}
