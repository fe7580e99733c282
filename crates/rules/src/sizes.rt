// Each limit and each width of document 01 ("Sizes", "The tables"), and of document 02's duties, stands here once, with the type it belongs to.
ghost use Rattle.std.specs.Prelude.{◌≡◌};
ghost use Rattle.rules.specs.Limits as law;
ghost use Rattle.rules.specs.Made.{horizon_made, configuration_made, leg_made, profile_made, sample_made};

// H, the seconds of the day that a timetable may fill.
#[derive(Clone, Copy)]
pub struct Horizon {
    pub seconds: u32,
}

impl Horizon {
    pub const LEAST: u32 = 1;

    pub const MOST: u32 = 176_400;

    // The seconds of a quarter hour, and how many quarters the greatest horizon has.
    pub const QUARTER: u32 = 900;

    pub const QUARTERS: usize = 196;

    pub fn new(seconds: u32) -> Option<Horizon>
        ensures { result ≡ horizon_made seconds }
    {
        if seconds < Self::LEAST || Self::MOST < seconds {
            return None;
        }
        Some(Horizon { seconds })
    }
}

// The ids of legs, trains, tracks, stations, profiles and subnets.
#[derive(Clone, Copy)]
pub struct Id {}

impl Id {
    pub const MOST: u32 = 999_999_999;
}

// A text of any of the files.
#[derive(Clone, Copy)]
pub struct Text {}

impl Text {
    pub const MOST: usize = 67_108_864;
}

// One way to run a leg: `d_t_p` in a text, three numbers in the table.
#[derive(Clone, Copy)]
pub struct Configuration {
    pub departure: u32,
    pub travel: u32,
    pub profile: u32,
}

impl Configuration {
    pub const WIDTH: usize = 3;

    // Where each number stands in an entry of the table.
    pub const DEPARTURE_AT: usize = 0;

    pub const TRAVEL_AT: usize = 1;

    pub const PROFILE_AT: usize = 2;

    pub const MOST: usize = 1_048_576;

    pub const LEAST_TRAVEL: u32 = 1;

    pub const MOST_TRAVEL: u32 = 3_600;

    // Within a horizon of `h` seconds.
    pub fn new(departure: u32, travel: u32, profile: u32, h: u32) -> Option<Configuration>
        ensures { result ≡ configuration_made departure travel profile h }
    {
        if travel < Self::LEAST_TRAVEL || Self::MOST_TRAVEL < travel || h < travel {
            return None;
        }
        if h - travel < departure {
            return None;
        }
        if Id::MOST < profile {
            return None;
        }
        Some(Configuration {
            departure,
            travel,
            profile,
        })
    }
}

// The configuration that a solution chose for a leg: the same three numbers, in a table of its own.
#[derive(Clone, Copy)]
pub struct Choice {}

impl Choice {
    pub const WIDTH: usize = Configuration::WIDTH;
}

// A row of the timetable: its five ids, where its configurations start, how many it has, and the nominal's place among them.
#[derive(Clone, Copy)]
pub struct Leg {
    pub id: u32,
    pub train: u32,
    pub track: u32,
    pub start: u32,
    pub end: u32,
    pub first: u32,
    pub count: u32,
    pub nominal: u32,
}

impl Leg {
    pub const WIDTH: usize = 8;

    // Where each number stands in an entry of the table; its ids stand in the order of a row.
    pub const ID_AT: usize = 0;

    pub const TRAIN_AT: usize = 1;

    pub const TRACK_AT: usize = 2;

    pub const START_AT: usize = 3;

    pub const END_AT: usize = 4;

    pub const FIRST_AT: usize = 5;

    pub const COUNT_AT: usize = 6;

    pub const NOMINAL_AT: usize = 7;

    pub const IDS: usize = 5;

    pub const MOST: usize = 32_768;

    // The first line of a timetable or solution, its LF too.
    pub const HEADER_LENGTH: usize = 114;

    pub const HEADER: [u8; Leg::HEADER_LENGTH] =
        *b"leg_id,train_id,track_id,start_station_id,end_station_id,nominal_departure_configuration,departure_configurations\n";

    pub const LEAST_CONFIGURATIONS: u32 = 1;

    pub const MOST_CONFIGURATIONS: u32 = 64;

    // The five ids are within theirs, the count is one that a row may have, and the nominal is one of the list.
    pub fn new(ids: [u32; Leg::IDS], first: u32, count: u32, nominal: u32) -> Option<Leg>
        ensures { result ≡ leg_made ids first count nominal }
    {
        if ids.iter().any(|&id| Id::MOST < id) {
            return None;
        }
        if count < Self::LEAST_CONFIGURATIONS || Self::MOST_CONFIGURATIONS < count {
            return None;
        }
        if count <= nominal {
            return None;
        }
        Some(Leg {
            id: ids[Self::ID_AT],
            train: ids[Self::TRAIN_AT],
            track: ids[Self::TRACK_AT],
            start: ids[Self::START_AT],
            end: ids[Self::END_AT],
            first,
            count,
            nominal,
        })
    }
}

// A row of the profiles: its id, where its samples start, and how many it has.
#[derive(Clone, Copy)]
pub struct Profile {
    pub id: u32,
    pub first: u32,
    pub count: u32,
}

impl Profile {
    pub const WIDTH: usize = 3;

    // Where each number stands in an entry of the table.
    pub const ID_AT: usize = 0;

    pub const FIRST_AT: usize = 1;

    pub const COUNT_AT: usize = 2;

    pub const MOST: usize = 16_384;

    // The first line of the profiles, its LF too.
    pub const HEADER_LENGTH: usize = 30;

    pub const HEADER: [u8; Profile::HEADER_LENGTH] = *b"profile_id,power_consumptions\n";

    pub const LEAST_SAMPLES: u32 = 1;

    pub const MOST_SAMPLES: u32 = 3_600;

    pub fn new(id: u32, first: u32, count: u32) -> Option<Profile>
        ensures { result ≡ profile_made id first count }
    {
        if Id::MOST < id {
            return None;
        }
        if count < Self::LEAST_SAMPLES || Self::MOST_SAMPLES < count {
            return None;
        }
        Some(Profile { id, first, count })
    }
}

// The average power of one second, in kilowatts.
#[derive(Clone, Copy)]
pub struct Sample {
    pub kw: i32,
}

impl Sample {
    pub const MOST: usize = 1_048_576;

    pub const MOST_KW: u32 = 20_000;

    // A magnitude and a sign; -0 is 0.
    pub fn new(minus: bool, kw: u32) -> Option<Sample>
        ensures { result ≡ sample_made minus kw }
    {
        if Self::MOST_KW < kw {
            return None;
        }
        let size = kw as i32;
        Some(Sample {
            kw: if minus { -size } else { size },
        })
    }
}

// A record of one of the five lists: kind, the rows of its two legs, its least and greatest seconds, its connection type.
#[derive(Clone, Copy)]
pub struct Constraint {
    pub kind: u32,
    pub first: u32,
    pub second: u32,
    pub low: u32,
    pub high: u32,
    pub connection: u32,
}

impl Constraint {
    pub const WIDTH: usize = 6;

    // Where each number stands in an entry of the table.
    pub const KIND_AT: usize = 0;

    pub const FIRST_AT: usize = 1;

    pub const SECOND_AT: usize = 2;

    pub const LOW_AT: usize = 3;

    pub const HIGH_AT: usize = 4;

    pub const CONNECTION_AT: usize = 5;

    pub const MOST: usize = 65_536;

    pub const MOST_SECONDS: u32 = 86_400;

    // Connection types: none, by the first leg's arrival, by its departure.
    pub const NO_TYPE: u32 = 0;

    pub const ARRIVAL: u32 = 1;

    pub const DEPARTURE: u32 = 2;
}

// A subnet has no table: a track names it by its place among the subnets.
#[derive(Clone, Copy)]
pub struct Subnet {}

impl Subnet {
    pub const MOST: usize = 8;
}

// A track and the place of its subnet.
#[derive(Clone, Copy)]
pub struct Track {
    pub id: u32,
    pub subnet: u32,
}

impl Track {
    pub const WIDTH: usize = 2;

    // Where each number stands in an entry of the table.
    pub const ID_AT: usize = 0;

    pub const SUBNET_AT: usize = 1;

    pub const MOST: usize = 4_096;
}

// A row of the rolling stock duties: one event of a duty.
#[derive(Clone, Copy)]
pub struct Event {}

impl Event {
    pub const MOST: usize = 8_192;

    // The greatest SEQ, and the greatest seconds.
    pub const MOST_TIME: u32 = 863_999;

    // The first line of the duties, its LF too.
    pub const HEADER_LENGTH: usize = 129;

    pub const HEADER: [u8; Event::HEADER_LENGTH] =
        *b"DUTY_ID,SEQ,START_TIME_SECONDS,START_TIME_HHMMSS,END_TIME_SECONDS,END_TIME_HHMMSS,START_NODE,END_NODE,EVENT_TYPE,TRAIN_COURSE_ID\n";

    // The event types.
    pub const TRAIN: [u8; 5] = *b"TRAIN";

    pub const CHANGE_END: [u8; 10] = *b"CHANGE_END";

    pub const SPARE: [u8; 5] = *b"SPARE";
}

// The columns of the duties, from 0.
#[derive(Clone, Copy)]
pub struct Column {}

impl Column {
    pub const DUTY: usize = 0;

    pub const SEQ: usize = 1;

    pub const START: usize = 2;

    pub const START_TEXT: usize = 3;

    pub const END: usize = 4;

    pub const END_TEXT: usize = 5;

    pub const FROM: usize = 6;

    pub const TO: usize = 7;

    pub const KIND: usize = 8;

    pub const COURSE: usize = 9;

    pub const ALL: usize = 10;
}

// The rules of the duties, by their numbers; 0 where none is broken.
#[derive(Clone, Copy)]
pub struct Rule {}

impl Rule {
    pub const NONE: u8 = 0;

    pub const LATER: u8 = 1;

    pub const STAYS: u8 = 2;

    pub const TOGETHER: u8 = 3;

    pub const SEQUENCE: u8 = 4;

    pub const MEETS: u8 = 5;

    pub const TEXTS: u8 = 6;
}

// A node of the duties: where its name first stands in the text, and how long it is.
#[derive(Clone, Copy)]
pub struct Node {}

impl Node {
    pub const WIDTH: usize = 2;

    // An entry of the table begins with the place; this is where the length stands.
    pub const LENGTH_AT: usize = 1;

    pub const MOST: usize = 1_024;
}

// A name in the duties: its least and greatest length, its least and greatest byte.
#[derive(Clone, Copy)]
pub struct Name {}

impl Name {
    pub const LEAST: usize = 1;

    pub const MOST: usize = 32;

    pub const FIRST_BYTE: u8 = b'!';

    pub const LAST_BYTE: u8 = b'~';
}

// The seconds of a day, an hour and a minute.
#[derive(Clone, Copy)]
pub struct Clock {}

impl Clock {
    pub const DAY: u32 = 86_400;

    pub const HOUR: u32 = 3_600;

    pub const MINUTE: u32 = 60;
}

// What a lent table holds after a refusal: a number that no field can have.
#[derive(Clone, Copy)]
pub struct Fill {}

impl Fill {
    pub const UNSIGNED: u32 = 4_294_967_295;

    pub const SIGNED: i32 = -2_147_483_648;

    pub const BYTE: u8 = 0;
}
