// The groups in which the arguments of the small program come: where each word stands, and whether they are all there.
ghost use Rattle.std.specs.Prelude.{◌≡◌, leb};

// The places of a group's words, counted from the group's own word, and how many words a group has.
#[derive(Clone, Copy)]
pub struct Words {}

impl Words {
    pub const HORIZON: usize = 1;

    pub const EDITION: usize = 2;

    pub const TIMETABLE: usize = 3;

    pub const PROFILES: usize = 4;

    pub const CONSTRAINTS: usize = 5;

    pub const SOLUTION: usize = 6;

    pub const SECOND_SOLUTION: usize = 7;

    pub const OUT: usize = 8;

    pub const OF_SOLUTION: usize = Self::SOLUTION + 1;

    pub const OF_TWO: usize = Self::OUT + 1;
}

// Whether a group of so many words is there, where `left` arguments are left.
pub fn is_whole(words: usize, left: usize) -> bool
    ensures { result ≡ leb words left }
{
    words <= left
}
