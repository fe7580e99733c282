// Files, read whole or not at all, and written.
ghost use Rattle.std.specs.Prelude.{◌≡◌, ◌≤◌, length};
ghost use Rattle.std.specs.Option.{IfSome};
ghost use Rattle.input.specs.Counts.{IsPrefixLen, taken};

use crate::rooms::Room;
use crate::{arguments, rooms};
use input::Unread;
use say_answers::say;
use std::fs::{File, OpenFile, OpenOptions};
use std::io::Write;
use std::rt::{Env, Files};

// A file that cannot be opened is one that cannot be read; nor is one whose name is no UTF-8, which has no path.
fn read_named(rt: &impl Files, path: &[u8], room: &mut [u8]) -> Result<usize, Unread>
    ensures { IsPrefixLen (taken result) room.new }
{
    let Ok(name) = str::from_utf8(path) else {
        return nothing_taken();
    };
    let Ok(mut file) = File::open(rt, name) else {
        return nothing_taken();
    };
    input::read_all(&mut file, room)
}

fn nothing_taken() -> Result<usize, Unread>
    ensures { taken result ≡ 0 }
{
    Err(Unread::Broken(0))
}

fn say_name(rt: &impl Print, file: u8, path: &[u8]) {
    say::sentence(rt, b"%f: ", &[file as u64]);
    say::bytes(rt, path);
}

fn too_long(rt: &impl Print) {
    say::sentence(
        rt,
        b" is longer than the %n bytes that this program takes\n",
        &[Room::MOST_TEXT as u64],
    );
}

// What is wrong with a file that cannot be judged. A room is one byte greater than a text may be.
fn say_unread(rt: &impl Print, why: Unread, file: u8, path: &[u8]) {
    say_name(rt, file, path);
    match why {
        Unread::Broken(_) => say::text(rt, b" could not be read\n"),
        Unread::TooLong(_) => too_long(rt),
    }
}

// The file that argument `at` names, read into a room; where it cannot be judged, it is said why.
pub fn load<'a>(
    rt: &(impl Files + Env + Print),
    at: usize,
    file: u8,
    room: &'a mut [u8],
) -> Option<&'a [u8]>
    ensures { IfSome result (λ s. length s.now ≤ length room.old) }
{
    let mut path = rooms::path();
    let length = arguments::read(rt, at, &mut path);
    match read_named(rt, &path[..length], room) {
        Ok(n) => Some(&room[..n]),
        Err(why) => {
            say_unread(rt, why, file, &path[..length]);
            None
        }
    }
}

// Whether the file is new and has the whole text. One that is there already, as an input may be, is left as it is.
fn write_named(rt: &impl Files, path: &[u8], text: &[u8]) -> bool {
    let Ok(name) = str::from_utf8(path) else {
        return false;
    };
    let Ok(mut file) = OpenOptions::new()
        .write(true)
        .create_new(true)
        .open(rt, name)
    else {
        return false;
    };
    let whole = file.write_all(text).is_ok();
    let kept = file.sync_all().is_ok();
    whole && kept
}

// Writes the file that argument `at` names, says so, and answers whether it has the whole text.
pub fn store(rt: &(impl Files + Env + Print), at: usize, text: &[u8]) -> bool {
    let mut path = rooms::path();
    let length = arguments::read(rt, at, &mut path);
    let whole = write_named(rt, &path[..length], text);
    say::text(rt, b"merged timetable: ");
    say::bytes(rt, &path[..length]);
    if whole {
        say::sentence(rt, b", bytes %n\n", &[text.len() as u64]);
    } else {
        say::text(rt, b" could not be written, or is there already\n");
    }
    whole
}
