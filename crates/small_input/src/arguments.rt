// The words of a group.
ghost use Rattle.input.specs.Counts.{IsPrefixLen};

use rules::sizes::Id;
use std::env::FillError;
use std::rt::Env;
use text_read::numbers;
use text_read::numbers::Unread;

// No word or number that means something is longer.
const WORD: usize = 32;

// How many arguments there are, the program's own name among them.
pub fn count(rt: &impl Env) -> usize {
    for at in 0..usize::MAX {
        if let Err(FillError::NotPresent) = rt.arg(at, &mut []) {
            return at;
        }
    }
    usize::MAX
}

// An argument at the front of a room, and its length: 0 where it is missing or longer than the room.
pub fn read(rt: &impl Env, at: usize, room: &mut [u8]) -> usize
    ensures { IsPrefixLen result room.new }
{
    rt.arg(at, room).unwrap_or(0)
}

pub fn is_word(rt: &impl Env, at: usize, name: &[u8]) -> bool {
    let mut word = [0u8; WORD];
    let length = read(rt, at, &mut word);
    text_read::words::spells(&word[..length], name)
}

// H or the edition, where it is a whole number. One past every id is neither an H nor an edition for the checker, too.
pub fn number(rt: &impl Env, at: usize) -> Option<u32> {
    let mut word = [0u8; WORD];
    let length = read(rt, at, &mut word);
    match numbers::read_whole(&word[..length]) {
        Ok(n) => Some(n),
        Err(Unread::Beyond) => Some(Id::MOST + 1),
        Err(Unread::Malformed) => None,
    }
}
