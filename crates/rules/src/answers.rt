// The three answers of document 01: accepted, the first violation, a numbered refusal; and a verdict's tally. The duties have their own three.
ghost use Rattle.std.specs.Prelude.{◌≡◌};
ghost use Rattle.rules.specs.Answers.{refusal, fault_at, violation, broken_rule};
ghost use Rattle.rules.specs.Tally.{no_tests, counted, Countable};

use crate::kinds::Kind;

// The files, by document 01's numbers; 0 where a refusal lies in none.
#[derive(Clone, Copy)]
pub struct File {}

impl File {
    pub const NONE: u8 = 0;

    pub const TIMETABLE: u8 = 1;

    pub const PROFILES: u8 = 2;

    pub const CONSTRAINTS: u8 = 3;

    pub const SOLUTION: u8 = 4;

    pub const SECOND_SOLUTION: u8 = 5;

    pub const DUTIES: u8 = 6;
}

#[derive(Clone, Copy)]
pub struct Refusal {
    pub number: u8,
    pub file: u8,
    pub place: u32,
}

impl Refusal {
    pub const HORIZON: u8 = 1;

    pub const TOO_LONG: u8 = 2;

    pub const HEADER: u8 = 3;

    pub const ROW_FORM: u8 = 4;

    pub const RANGE: u8 = 5;

    pub const COUNT: u8 = 6;

    pub const SEEN: u8 = 7;

    pub const NOMINAL: u8 = 8;

    pub const JSON_FORM: u8 = 9;

    pub const UNKNOWN: u8 = 10;

    pub const REPEATED_OR_MISSING: u8 = 11;

    pub const NOT_THERE: u8 = 12;

    pub const SAMPLES: u8 = 13;

    pub const DIFFERS: u8 = 14;

    pub const NO_SUBNET: u8 = 15;

    pub const ROOM: u8 = 16;

    pub const TRAVEL: u8 = 17;

    pub const NO_SOLUTION: u8 = 19;

    pub const UNKNOWN_EDITION: u8 = 21;

    pub fn new(number: u8, file: u8, place: u32) -> Refusal
        ensures { result ≡ refusal number file place }
    {
        Refusal {
            number,
            file,
            place,
        }
    }
}

// Why a text is refused, by whoever reads it and does not know which file it is.
#[derive(Clone, Copy)]
pub struct Fault {
    pub number: u8,
    pub place: u32,
}

impl Fault {
    pub fn new(number: u8, place: u32) -> Fault
        ensures { result ≡ fault_at number place }
    {
        Fault { number, place }
    }

    pub fn in_file(self, file: u8) -> Refusal
        ensures { result ≡ refusal self.number file self.place }
    {
        Refusal::new(self.number, file, self.place)
    }
}

#[derive(Clone, Copy)]
pub struct Violation {
    pub kind: u8,
    pub position: u32,
    pub inequality: u8,
    pub shortfall: u32,
    pub file: u8,
}

impl Violation {
    pub fn new(kind: u8, position: u32, inequality: u8, shortfall: u32, file: u8) -> Violation
        ensures { result ≡ violation kind position inequality shortfall file }
    {
        Violation {
            kind,
            position,
            inequality,
            shortfall,
            file,
        }
    }
}

#[derive(Clone, Copy)]
pub enum Answer {
    Accepted,
    Violated(Violation),
    Refused(Refusal),
}

// The first row of the duties, from 0, that breaks a rule, its lowest rule, and its first byte.
#[derive(Clone, Copy)]
pub struct BrokenRule {
    pub row: u32,
    pub rule: u8,
    pub place: u32,
}

impl BrokenRule {
    pub fn new(row: u32, rule: u8, place: u32) -> BrokenRule
        ensures { result ≡ broken_rule row rule place }
    {
        BrokenRule { row, rule, place }
    }
}

// What is answered of the duties (document 02, E13): accepted, with so many nodes; the first broken row; a refusal.
#[derive(Clone, Copy)]
pub enum Told {
    Accepted(u32),
    Broken(BrokenRule),
    Refused(Refusal),
}

// How much was tested: six counts, one per kind from 0 to 5, and their total.
#[derive(Clone, Copy)]
pub struct Tally {
    pub kinds: [u32; Tally::KINDS],
    pub total: u32,
}

impl Tally {
    // Kind 0 and the five of document 01.
    pub const KINDS: usize = Kind::COUNT + 1;

    pub fn none() -> Tally
        ensures { result ≡ no_tests }
    {
        Tally {
            kinds: [0; Tally::KINDS],
            total: 0,
        }
    }

    // So many tests more, of one kind.
    pub fn with(self, kind: usize, tests: u32) -> Tally
        requires { Countable kind tests self }
        ensures { result ≡ counted kind tests self }
    {
        let mut t = self;
        t.kinds[kind] = t.kinds[kind] + tests;
        t.total = t.total + tests;
        t
    }
}

// A verdict: the answer, and how much was tested for it.
#[derive(Clone, Copy)]
pub struct Ruling {
    pub answer: Answer,
    pub tally: Tally,
}
