// The first state, and the state after a token.
ghost use Rattle.std.specs.Prelude.{◌≡◌};
ghost use Rattle.rules.specs.Constraints as law;

use rules::kinds::Key;
use rules::sizes::Constraint;
use rules::tokens::{Lists, Phase, Rules, State};

fn no_entry(kind: u32) -> Constraint
    ensures { result ≡ law.no_entry kind }
{
    Constraint {
        kind,
        first: 0,
        second: 0,
        low: 0,
        high: 0,
        connection: Constraint::NO_TYPE,
    }
}

// Before the first token.
pub fn starting(rules: Rules) -> State
    ensures { result ≡ law.start rules }
{
    State {
        rules,
        phase: Phase::Document,
        list: Lists::UNKNOWN,
        lists: 0,
        key: Key::UNKNOWN,
        keys: 0,
        entry: no_entry(0),
    }
}

pub fn to_phase(st: State, phase: Phase) -> State
    ensures { result ≡ law.goes phase st }
{
    State { phase, ..st }
}

pub fn in_list(list: u8, bit: u8, st: State) -> State
    requires { bit ≡ law.list_bit list }
    ensures { result ≡ law.in_list list st }
{
    State {
        phase: Phase::NameColon,
        list,
        lists: st.lists | bit,
        ..st
    }
}

pub fn in_record(st: State) -> State
    ensures { result ≡ law.in_record st }
{
    State {
        phase: Phase::FirstKey,
        key: Key::UNKNOWN,
        keys: 0,
        entry: no_entry(u32::from(st.list)),
        ..st
    }
}

pub fn at_key(key: u16, st: State) -> State
    ensures { result ≡ law.at_key key st }
{
    State {
        phase: Phase::KeyColon,
        key,
        keys: st.keys | key,
        ..st
    }
}

pub fn with_entry(entry: Constraint, st: State) -> State
    ensures { result ≡ law.with_entry entry st }
{
    State {
        phase: Phase::AfterValue,
        entry,
        ..st
    }
}

pub fn is_low(key: u16) -> bool
    ensures { result ≡ law.is_low key }
{
    matches!(
        key,
        Key::MIN_HEADWAY | Key::MIN_DWELL | Key::MIN_TURNAROUND | Key::MIN_CONNECTION
    )
}

// A number into its field, by its key.
pub fn entered(key: u16, n: u32, c: Constraint) -> Constraint
    ensures { result ≡ law.entered key n c }
{
    match key {
        Key::FIRST_LEG => Constraint { first: n, ..c },
        Key::SECOND_LEG => Constraint { second: n, ..c },
        Key::MAX_CONNECTION => Constraint { high: n, ..c },
        Key::CONNECTION_TYPE => Constraint { connection: n, ..c },
        _ if is_low(key) => Constraint { low: n, ..c },
        _ => c,
    }
}

pub fn given(n: u32, st: State) -> State
    ensures { result ≡ law.with_entry (law.entered st.key n st.entry) st }
{
    with_entry(entered(st.key, n, st.entry), st)
}
