// A reader, read into a lent room until the room is full or there is no more. A read may give less than was asked: 0 is the end, an error a read that failed. The small program reads its files by it.
#![tactic(auto)]

ghost use Rattle.input.specs.Counts.{IsPrefixLen, taken};

use std::io::Read;

// Why the whole was not read, and how many bytes were.
#[derive(Clone, Copy)]
pub enum Unread {
    // There may be more than the room holds.
    TooLong(usize),
    // A read failed.
    Broken(usize),
}

// How many bytes stand at the front of the room, the whole or not.
pub fn read_all(reader: &mut impl Read, room: &mut [u8]) -> Result<usize, Unread>
    ensures { IsPrefixLen (taken result) room.new }
{
    let mut done = 0;
    // Kept (no plainer): a turn goes on by what a read gave, which no range does.
    while done < room.len() {
        let Ok(more) = reader.read(&mut room[done..]) else {
            return Err(Unread::Broken(done));
        };
        if more == 0 {
            return Ok(done);
        }
        done += more;
    }
    Err(Unread::TooLong(done))
}
