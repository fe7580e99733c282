// The words of the automaton that reads constraints.json: classes of tokens, phases, actions, and its state.
use crate::sizes::Constraint;

// What a token is. A string that the text's end cuts, and one with a forbidden byte, have classes of their own.
#[derive(Clone, Copy)]
pub enum Class {
    OpenBrace,
    CloseBrace,
    OpenBracket,
    CloseBracket,
    Colon,
    Comma,
    Quoted,
    Run,
    End,
    Unclosed,
    Forbidden,
}

// What is read next: of the document, of one of its lists, of a record, of a list of tracks.
#[derive(Clone, Copy)]
pub enum Phase {
    Document,
    FirstName,
    Name,
    NameColon,
    ListOpen,
    AfterList,
    FirstRecord,
    Record,
    AfterRecord,
    FirstKey,
    NextKey,
    KeyColon,
    Value,
    AfterValue,
    FirstTrack,
    NextTrack,
    AfterTrack,
    Done,
}

// What a token does in a phase.
#[derive(Clone, Copy)]
pub enum Action {
    // It may not stand here.
    Broken,
    // The text ends too early.
    Early,
    // It is a sign and no more: on to the next phase.
    Goes(Phase),
    ListName,
    DocumentEnds,
    RecordOpens,
    KeyName,
    RecordEnds,
    StringValue,
    // A string that the text's end cuts: too early where a string may stand, else in the wrong place.
    StringCut,
    NumberValue,
    TracksOpen,
    TrackNumber,
    Finishes,
}

// The lists by number: the five kinds, then the subnets. A set of lists is one number, a bit for each.
#[derive(Clone, Copy)]
pub struct Lists {}

impl Lists {
    pub const UNKNOWN: u8 = 0;

    pub const SUBNETS: u8 = 6;

    pub const ALL: u8 = 63;
}

// What a caller states about a file.
#[derive(Clone, Copy)]
pub struct Rules {
    // The lists that must be present.
    pub required: u8,
    // The edition of document 000, by which kind 4 names its key.
    pub edition: u32,
}

// How far the reader is: the phase, the list and the lists seen, the key and the keys seen, the record so far.
#[derive(Clone, Copy)]
pub struct State {
    pub rules: Rules,
    pub phase: Phase,
    pub list: u8,
    pub lists: u8,
    pub key: u16,
    pub keys: u16,
    pub entry: Constraint,
}
