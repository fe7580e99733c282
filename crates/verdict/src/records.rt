// Then the constraint table in order: the check stops at the first inequality that fails.
ghost use Rattle.std.specs.Prelude.{false, ◌≡◌, ◌-◌};
ghost use Rattle.rules.specs.Limits.{most_legs};
ghost use Rattle.rules.specs.Kinds.{anchored, measured, by_anchor, by_anchors, rule_of, not_offered};
ghost use Rattle.rules.specs.Verdict.{choice_at, inequalities, test, position_after, record_tests, verdict_from, answer_of, ruling};
ghost use Rattle.rules.specs.Verdict.{violated as found};
ghost use Rattle.tables_views.specs.View.{constraints_in, configurations_in};
ghost use Rattle.verdict.specs.Found.{shortfall_of, finding_of, tests_in};
ghost use Rattle.verdict.specs.Within.{Within, Fair, Failed};

use rules::answers::{Answer, Ruling, Tally, Violation};
use rules::kinds::{Anchor, Key, Kind};
use rules::sizes::{Configuration, Constraint};

// The inequality of a record that fails, and its shortfall.
#[derive(Clone, Copy)]
pub struct Failing {
    pub inequality: u8,
    pub short: u64,
}

// The inequalities of a record that were tested: so many, and all of them hold, or the last fails.
pub type Finding = Result<u8, Failing>;

// What cannot hold (`Kinds.cannot_hold`) fails by a second.
const CANNOT_HOLD: u64 = 1;

// Another number than a kind's has one inequality, which cannot hold.
const NO_KIND: Failing = Failing {
    inequality: 1,
    short: CANNOT_HOLD,
};

// x of kind 5, by the record's type; another type has none.
pub fn x_of(connection: u32, c: Configuration) -> Option<u64>
    ensures { result ≡ anchored connection c }
{
    let departure = u64::from(c.departure);
    match connection {
        Constraint::ARRIVAL => Some(departure + u64::from(c.travel)),
        Constraint::DEPARTURE => Some(departure),
        _ => None,
    }
}

// A leg by an anchor: d, d + t, or x.
pub fn time_of(anchor: Anchor, connection: u32, c: Configuration) -> Option<u64>
    ensures { result ≡ measured anchor connection c }
{
    let departure = u64::from(c.departure);
    match anchor {
        Anchor::None | Anchor::Unknown(_) => None,
        Anchor::Departure => Some(departure),
        Anchor::Arrival => Some(departure + u64::from(c.travel)),
        Anchor::Connection | Anchor::Latest => x_of(connection, c),
    }
}

// By how much the left side passes the right.
pub fn beyond(left: u64, right: u64) -> u64
    ensures { result ≡ left - right }
{
    left.saturating_sub(right)
}

// The shortfall of one inequality, by the anchors of the first leg and of the second; 0 where it holds. Without both times it cannot hold.
pub fn shortfall(
    keys: u16,
    first: Anchor,
    second: Anchor,
    c: Constraint,
    one: Configuration,
    two: Configuration,
) -> u64
    ensures { result ≡ shortfall_of (by_anchor keys first second c.low c.high c.connection one two) }
{
    let connection = c.connection;
    let Some(a) = time_of(first, connection, one) else {
        return CANNOT_HOLD;
    };
    let Some(b) = time_of(second, connection, two) else {
        return CANNOT_HOLD;
    };
    if first == Anchor::Latest {
        return beyond(b, a + u64::from(c.high));
    }
    if keys == Key::FIRST_LEG + Key::SECOND_LEG {
        return beyond(a, b);
    }
    beyond(a + u64::from(c.low), b)
}

// The inequalities of a row of the table of kinds, in order.
pub fn first_failing(row: Kind, c: Constraint, one: Configuration, two: Configuration) -> Finding
    ensures { result ≡ finding_of (by_anchors row c.low c.high c.connection one two) }
{
    let keys = row.keys;
    let count = row.inequalities;
    let anchors = row.anchors;
    if count < 1 {
        return Ok(0);
    }
    let short = shortfall(keys, anchors[0], anchors[1], c, one, two);
    if 0 < short {
        return Err(Failing {
            inequality: 1,
            short,
        });
    }
    if count < 2 {
        return Ok(1);
    }
    let second = shortfall(keys, anchors[2], anchors[3], c, one, two);
    if 0 < second {
        return Err(Failing {
            inequality: 2,
            short: second,
        });
    }
    Ok(2)
}

// The choice of a row; 0 everywhere where there is no such row.
pub fn choice_of(choices: &[u32], n: usize, row: usize) -> Configuration
    ensures { result ≡ choice_at (configurations_in n choices.now) row }
{
    if row < n {
        tables_views::configuration_at(choices, row)
    } else {
        Configuration {
            departure: 0,
            travel: 0,
            profile: 0,
        }
    }
}

// A record by its kind's row of the table, over the choices of its two rows.
pub fn find_record(c: Constraint, one: Configuration, two: Configuration) -> Finding
    ensures { result ≡ finding_of (rule_of c.kind c.low c.high c.connection one two) }
{
    let kind = c.kind as usize;
    if kind < 1 || Kind::COUNT < kind {
        return Err(NO_KIND);
    }
    let row = rules::kinds::kind_at(kind - 1);
    first_failing(row, c, one, two)
}

pub fn judge_record(c: Constraint, choices: &[u32], n: usize) -> Finding
    ensures { result ≡ finding_of (inequalities (configurations_in n choices.now) c) }
{
    let one = choice_of(choices, n, c.first as usize);
    let two = choice_of(choices, n, c.second as usize);
    find_record(c, one, two)
}

// How many inequalities were tested.
pub fn tests_of(finding: Finding) -> u32
    ensures { result ≡ tests_in finding }
{
    match finding {
        Ok(tests) => tests as u32,
        Err(failing) => failing.inequality as u32,
    }
}

// The position within its list of a record that follows `n` records of a kind.
pub fn position_after(before: u32, n: u32, kind: u32) -> u32
    ensures { result ≡ position_after before n kind }
{
    if before == kind { n } else { 0 }
}

// The answer that names a failing inequality.
pub fn violated(kind: u32, position: u32, inequality: u8, short: u64, file: u8) -> Answer
    requires { Failed kind short }
    ensures { result ≡ answer_of file (found (test kind position inequality short false)) }
{
    Answer::Violated(Violation::new(kind as u8, position, inequality, short as u32, file))
}

// All records in order, after the tests that are counted already.
pub fn judge_records(
    constraints: &[u32],
    m: usize,
    choices: &[u32],
    n: usize,
    file: u8,
    counted: Tally,
) -> Ruling
    requires { Within (constraints_in m constraints.now) (configurations_in n choices.now) × Fair most_legs counted }
    ensures { result ≡ ruling file (verdict_from counted (record_tests not_offered 0 (configurations_in n choices.now) (constraints_in m constraints.now))) }
{
    let mut tally = counted;
    let mut before: u32 = Kind::NOT_OFFERED as u32;
    let mut next: u32 = 0;
    'records: {
        for i in 0..m {
            let c = tables_views::constraint_at(constraints, i);
            let kind = c.kind;
            let position = position_after(before, next, kind);
            let finding = judge_record(c, choices, n);
            tally = tally.with(kind as usize, tests_of(finding));
            if let Err(failing) = finding {
                let answer = violated(kind, position, failing.inequality, failing.short, file);
                break 'records Ruling { answer, tally };
            }
            before = kind;
            next = position + 1;
        }
        let answer = Answer::Accepted;
        Ruling { answer, tally }
    }
}
