// The names of lists, of keys and of connection types, by spelling; 0 where a word is none of them.
ghost use Rattle.std.specs.Prelude.{◌≡◌, find};
ghost use Rattle.std.specs.Option.{option_map};
ghost use Rattle.rules.specs.Lists.{same_list};
ghost use Rattle.rules.specs.Kinds.{list_named, key_named, key_in, type_named};

use rules::kinds::{Edition, Key, Kind};
use rules::sizes::Constraint;
use rules::tokens::Lists;
use text_read::words::spells;

// What a word stands for in a table of names.
fn named<T: Copy>(table: &[(&[u8], T)], word: &[u8]) -> Option<T>
    ensures { result ≡ option_map (λ row. row.1) (find (λ row. same_list row.0.now word.now) table.now) }
{
    table
        .iter()
        .find(|(name, _)| spells(word, name))
        .map(|(_, value)| *value)
}

// The lists in the order of their kinds; the sixth is that of the subnets.
const LISTS: [(&[u8], u8); 6] = [
    (b"headway_time_constraints", Kind::HEADWAY),
    (b"single_track_headway_constraints", Kind::SINGLE_TRACK),
    (b"dwell_time_constraints", Kind::DWELL),
    (b"terminal_turnaround_constraints", Kind::TURNAROUND),
    (b"connection_constraints", Kind::CONNECTION),
    (b"recuperation_subnets", Lists::SUBNETS),
];

// The keys of records, each by its bit.
const KEYS: [(&[u8], u16); 10] = [
    (b"first_leg_id", Key::FIRST_LEG),
    (b"second_leg_id", Key::SECOND_LEG),
    (b"min_headway_time", Key::MIN_HEADWAY),
    (b"min_dwell_time", Key::MIN_DWELL),
    (b"min_turnaround_time", Key::MIN_TURNAROUND),
    (b"min_connection_time", Key::MIN_CONNECTION),
    (b"max_connection_time", Key::MAX_CONNECTION),
    (b"connection_type", Key::CONNECTION_TYPE),
    (b"subnet_id", Key::SUBNET_ID),
    (b"track_ids", Key::TRACK_IDS),
];

// The connection types.
const TYPES: [(&[u8], u32); 2] = [
    (b"arrival_to_departure", Constraint::ARRIVAL),
    (b"departure_to_departure", Constraint::DEPARTURE),
];

// Kept (law list_named): an unknown list is list 0, and so are an unknown key and an unknown type.
pub fn list_named(word: &[u8]) -> u8
    ensures { result ≡ list_named word.now }
{
    named(&LISTS, word).unwrap_or(Lists::UNKNOWN)
}

pub fn key_named(word: &[u8]) -> u16
    ensures { result ≡ key_named word.now }
{
    named(&KEYS, word).unwrap_or(Key::UNKNOWN)
}

// The key that a word names in a record of a list: in kind 4's records the two names change places by edition 1.
#[tactic(auto, unfolding(rules::specs::Kinds::key_in))]
pub fn key_in(edition: u32, list: u8, word: &[u8]) -> u16
    ensures { result ≡ key_in edition list word.now }
{
    let key = key_named(word);
    if edition != Edition::TABLE || list != Kind::TURNAROUND {
        return key;
    }
    match key {
        Key::MIN_DWELL => Key::MIN_TURNAROUND,
        Key::MIN_TURNAROUND => Key::MIN_DWELL,
        _ => key,
    }
}

pub fn type_named(word: &[u8]) -> u32
    ensures { result ≡ type_named word.now }
{
    named(&TYPES, word).unwrap_or(Constraint::NO_TYPE)
}
