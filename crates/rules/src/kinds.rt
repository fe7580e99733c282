// The five kinds of constraint with the keys that each must carry, in one table (document 01, "constraints.json").
ghost use Rattle.std.specs.Prelude.{◌≡◌, ◌<◌, length, get_or};
ghost use Rattle.rules.specs.Kinds.{anchor_of, kind_table, no_kind};

// The keys of records, one bit each, so that a set of keys is one number.
#[derive(Clone, Copy)]
pub struct Key {}

impl Key {
    pub const UNKNOWN: u16 = 0;

    pub const FIRST_LEG: u16 = 1;

    pub const SECOND_LEG: u16 = 2;

    pub const MIN_HEADWAY: u16 = 4;

    pub const MIN_DWELL: u16 = 8;

    pub const MIN_TURNAROUND: u16 = 16;

    pub const MIN_CONNECTION: u16 = 32;

    pub const MAX_CONNECTION: u16 = 64;

    pub const CONNECTION_TYPE: u16 = 128;

    pub const SUBNET_ID: u16 = 256;

    pub const TRACK_IDS: u16 = 512;
}

// The editions that a file may be of, by number: they differ in the name of kind 4's key.
#[derive(Clone, Copy)]
pub struct Edition {}

impl Edition {
    // Table 3 of document 000: `min_dwell_time`.
    pub const TABLE: u32 = 1;

    // The example of document 000, and document 001: `min_turnaround_time`.
    pub const EXAMPLE: u32 = 2;
}

// What an inequality measures a leg by.
#[derive(Clone, Copy, PartialEq, Eq)]
pub enum Anchor {
    // There is no second inequality; a leg has no time by it.
    None,
    // d, and d + t.
    Departure,
    Arrival,
    // x of kind 5, by the record's type, with its least seconds; and as what bounds the second leg from above, with its greatest.
    Connection,
    Latest,
    // A number that nobody knows. A leg has no time by it either, and an inequality about no time cannot hold.
    Unknown(u8),
}

impl Anchor {
    pub const NONE: u8 = 0;

    pub const DEPARTURE: u8 = 1;

    pub const ARRIVAL: u8 = 2;

    pub const CONNECTION: u8 = 3;

    pub const LATEST: u8 = 4;

    // The anchor of a number.
    pub fn of(number: u8) -> Anchor
        ensures { result ≡ anchor_of number }
    {
        match number {
            Anchor::NONE => Anchor::None,
            Anchor::DEPARTURE => Anchor::Departure,
            Anchor::ARRIVAL => Anchor::Arrival,
            Anchor::CONNECTION => Anchor::Connection,
            Anchor::LATEST => Anchor::Latest,
            _ => Anchor::Unknown(number),
        }
    }
}

// A kind: the keys of its records, how many inequalities it has, and the anchors of both legs in each.
#[derive(Clone, Copy)]
pub struct Kind {
    pub keys: u16,
    pub inequalities: u8,
    pub anchors: [Anchor; 4],
}

impl Kind {
    pub const COUNT: usize = 5;

    // The numbers by which document 01 names the kinds; a choice that is not offered is kind 0.
    pub const NOT_OFFERED: u8 = 0;

    pub const HEADWAY: u8 = 1;

    pub const SINGLE_TRACK: u8 = 2;

    pub const DWELL: u8 = 3;

    pub const TURNAROUND: u8 = 4;

    pub const CONNECTION: u8 = 5;
}

const KINDS: [Kind; Kind::COUNT] = [
    Kind {
        keys: Key::FIRST_LEG + Key::SECOND_LEG + Key::MIN_HEADWAY,
        inequalities: 2,
        anchors: [
            Anchor::Departure,
            Anchor::Departure,
            Anchor::Arrival,
            Anchor::Arrival,
        ],
    },
    Kind {
        keys: Key::FIRST_LEG + Key::SECOND_LEG,
        inequalities: 1,
        anchors: [
            Anchor::Arrival,
            Anchor::Departure,
            Anchor::None,
            Anchor::None,
        ],
    },
    Kind {
        keys: Key::FIRST_LEG + Key::SECOND_LEG + Key::MIN_DWELL,
        inequalities: 1,
        anchors: [
            Anchor::Arrival,
            Anchor::Departure,
            Anchor::None,
            Anchor::None,
        ],
    },
    Kind {
        keys: Key::FIRST_LEG + Key::SECOND_LEG + Key::MIN_TURNAROUND,
        inequalities: 1,
        anchors: [
            Anchor::Arrival,
            Anchor::Departure,
            Anchor::None,
            Anchor::None,
        ],
    },
    Kind {
        keys: Key::FIRST_LEG
            + Key::SECOND_LEG
            + Key::MIN_CONNECTION
            + Key::MAX_CONNECTION
            + Key::CONNECTION_TYPE,
        inequalities: 2,
        anchors: [
            Anchor::Connection,
            Anchor::Departure,
            Anchor::Latest,
            Anchor::Departure,
        ],
    },
];

// Row `place` of the table: kind 1 stands at place 0.
pub fn kind_at(place: usize) -> Kind
    requires { place < length kind_table }
    ensures { result ≡ get_or kind_table place no_kind }
{
    KINDS[place]
}
