// The code's constants are the numbers of document 01, as ../specs has them: an edit of either side alone is refused.
ghost use Rattle.std.specs.Prelude.{◌≡◌};
ghost use Rattle.rules.specs.Ties.{limits, signed_fills, numbers, names};
ghost use Rattle.rules.specs.Timetable.{timetable_header};
ghost use Rattle.rules.specs.Profiles.{profiles_header};
ghost use Rattle.rules.specs.Duties.{duties_header};

use crate::answers::{File, Refusal};
use crate::figures::Figures;
use crate::kinds::{Anchor, Edition, Key, Kind};
use crate::sizes::{
    Choice, Clock, Column, Configuration, Constraint, Event, Fill, Horizon, Id, Leg, Name, Node,
    Profile, Rule, Sample, Subnet, Text, Track,
};
use crate::tokens::Lists;

// Sizes and widths, in the order of specs/Ties.antt.
const LIMITS: [u64; 41] = [
    Horizon::LEAST as u64,
    Horizon::MOST as u64,
    Horizon::QUARTER as u64,
    Horizon::QUARTERS as u64,
    Id::MOST as u64,
    Text::MOST as u64,
    Configuration::WIDTH as u64,
    Configuration::MOST as u64,
    Configuration::LEAST_TRAVEL as u64,
    Configuration::MOST_TRAVEL as u64,
    Choice::WIDTH as u64,
    Leg::WIDTH as u64,
    Leg::MOST as u64,
    Leg::LEAST_CONFIGURATIONS as u64,
    Leg::MOST_CONFIGURATIONS as u64,
    Profile::WIDTH as u64,
    Profile::MOST as u64,
    Profile::LEAST_SAMPLES as u64,
    Profile::MOST_SAMPLES as u64,
    Sample::MOST as u64,
    Sample::MOST_KW as u64,
    Constraint::WIDTH as u64,
    Constraint::MOST as u64,
    Constraint::MOST_SECONDS as u64,
    Subnet::MOST as u64,
    Track::WIDTH as u64,
    Track::MOST as u64,
    Event::MOST as u64,
    Node::MOST as u64,
    Node::WIDTH as u64,
    Name::LEAST as u64,
    Name::MOST as u64,
    Event::MOST_TIME as u64,
    Clock::DAY as u64,
    Clock::HOUR as u64,
    Clock::MINUTE as u64,
    Fill::UNSIGNED as u64,
    Fill::BYTE as u64,
    Figures::MOST as u64,
    Figures::KJ_A_MWH as u64,
    Figures::KJ_A_MW as u64,
];

pub fn limits_are_the_laws() -> [u64; 41]
    ensures { result ≡ limits }
{
    LIMITS
}

// The one signed constant.
pub fn signed_fill_is_the_law() -> [i32; 1]
    ensures { result ≡ signed_fills }
{
    [Fill::SIGNED]
}

// The numbers of refusals, and the files.
const NUMBERS: [u64; 26] = [
    Refusal::HORIZON as u64,
    Refusal::TOO_LONG as u64,
    Refusal::HEADER as u64,
    Refusal::ROW_FORM as u64,
    Refusal::RANGE as u64,
    Refusal::COUNT as u64,
    Refusal::SEEN as u64,
    Refusal::NOMINAL as u64,
    Refusal::JSON_FORM as u64,
    Refusal::UNKNOWN as u64,
    Refusal::REPEATED_OR_MISSING as u64,
    Refusal::NOT_THERE as u64,
    Refusal::SAMPLES as u64,
    Refusal::DIFFERS as u64,
    Refusal::NO_SUBNET as u64,
    Refusal::ROOM as u64,
    Refusal::TRAVEL as u64,
    Refusal::NO_SOLUTION as u64,
    Refusal::UNKNOWN_EDITION as u64,
    File::NONE as u64,
    File::TIMETABLE as u64,
    File::PROFILES as u64,
    File::CONSTRAINTS as u64,
    File::SOLUTION as u64,
    File::SECOND_SOLUTION as u64,
    File::DUTIES as u64,
];

pub fn numbers_are_the_laws() -> [u64; 26]
    ensures { result ≡ numbers }
{
    NUMBERS
}

// The kinds, lists, keys, anchors and connection types; the columns, rules and bytes of the duties.
const NAMES: [u64; 49] = [
    Kind::NOT_OFFERED as u64,
    Kind::HEADWAY as u64,
    Kind::SINGLE_TRACK as u64,
    Kind::DWELL as u64,
    Kind::TURNAROUND as u64,
    Kind::CONNECTION as u64,
    Lists::UNKNOWN as u64,
    Lists::SUBNETS as u64,
    Lists::ALL as u64,
    Key::UNKNOWN as u64,
    Key::FIRST_LEG as u64,
    Key::SECOND_LEG as u64,
    Key::MIN_HEADWAY as u64,
    Key::MIN_DWELL as u64,
    Key::MIN_TURNAROUND as u64,
    Key::MIN_CONNECTION as u64,
    Key::MAX_CONNECTION as u64,
    Key::CONNECTION_TYPE as u64,
    Key::SUBNET_ID as u64,
    Key::TRACK_IDS as u64,
    Edition::TABLE as u64,
    Edition::EXAMPLE as u64,
    Anchor::NONE as u64,
    Anchor::DEPARTURE as u64,
    Anchor::ARRIVAL as u64,
    Anchor::CONNECTION as u64,
    Anchor::LATEST as u64,
    Constraint::NO_TYPE as u64,
    Constraint::ARRIVAL as u64,
    Constraint::DEPARTURE as u64,
    Column::DUTY as u64,
    Column::SEQ as u64,
    Column::START as u64,
    Column::START_TEXT as u64,
    Column::END as u64,
    Column::END_TEXT as u64,
    Column::FROM as u64,
    Column::TO as u64,
    Column::KIND as u64,
    Column::COURSE as u64,
    Column::ALL as u64,
    Rule::LATER as u64,
    Rule::STAYS as u64,
    Rule::TOGETHER as u64,
    Rule::SEQUENCE as u64,
    Rule::MEETS as u64,
    Rule::TEXTS as u64,
    Name::FIRST_BYTE as u64,
    Name::LAST_BYTE as u64,
];

pub fn names_are_the_laws() -> [u64; 49]
    ensures { result ≡ names }
{
    NAMES
}

// The headers.
pub fn timetable_header_is_the_law() -> [u8; Leg::HEADER_LENGTH]
    ensures { result ≡ timetable_header }
{
    Leg::HEADER
}

pub fn profiles_header_is_the_law() -> [u8; Profile::HEADER_LENGTH]
    ensures { result ≡ profiles_header }
{
    Profile::HEADER
}

pub fn duties_header_is_the_law() -> [u8; Event::HEADER_LENGTH]
    ensures { result ≡ duties_header }
{
    Event::HEADER
}
