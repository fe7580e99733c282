// Room for whatever texts of 16 KiB can hold, so that the program never answers 16. The shortest row of a timetable has 22 bytes, an entry of a list 6,
// the shortest row of the profiles 6, a sample 4, a record 36; track numbers are distinct.
ghost use Rattle.std.specs.Prelude.{◌≡◌, length};
ghost use Rattle.small_input.specs.Rooms.{text_room, table_room, sample_room, most_curves, path_room, merged_room};

use rules::sizes::{Fill, Horizon, Subnet};

const KIB: usize = 1_024;

#[derive(Clone, Copy)]
pub struct Room {}

impl Room {
    // The bytes of a text that this program takes, and one more: a full buffer is a text that is too long.
    pub const MOST_TEXT: usize = 16 * KIB;

    pub const TEXT: usize = Self::MOST_TEXT + 1;

    // The longest table of unsigned numbers.
    pub const TABLE: usize = 12 * KIB;

    pub const SAMPLES: usize = 8 * KIB;

    // Any path, with the 0 that ends it.
    pub const PATH: usize = 4 * KIB;

    // A merged text.
    pub const MERGED: usize = 64 * KIB;

    // The greatest curves that there are.
    pub const CURVES: usize = Subnet::MOST * Horizon::MOST as usize;
}

// A room comes out of a function that promises its length alone, since the prover does not write its numbers out then.
pub fn text() -> [u8; Room::TEXT]
    ensures { text_room ≡ length result }
{
    [0; Room::TEXT]
}

// Full of a number that no field can have.
pub fn table() -> [u32; Room::TABLE]
    ensures { table_room ≡ length result }
{
    [Fill::UNSIGNED; Room::TABLE]
}

pub fn samples() -> [i32; Room::SAMPLES]
    ensures { sample_room ≡ length result }
{
    [Fill::SIGNED; Room::SAMPLES]
}

pub fn path() -> [u8; Room::PATH]
    ensures { path_room ≡ length result }
{
    [0; Room::PATH]
}

pub fn merged() -> [u8; Room::MERGED]
    ensures { merged_room ≡ length result }
{
    [0; Room::MERGED]
}

// The one large array of this program. It is zeros, which are made in place: any other number would be made beside it, and two such arrays do not stand on a
// stack of 8 MB.
pub fn curves() -> [i32; Room::CURVES]
    ensures { most_curves ≡ length result }
{
    [0; Room::CURVES]
}
