// The values of keys: strings and numbers.
ghost use Rattle.std.specs.Prelude.{◌≡◌, List, ℕ, ◌≤◌};
ghost use Rattle.rules.specs.Limits.{leg_width, most_legs};
ghost use Rattle.rules.specs.Kinds.{type_named};
ghost use Rattle.rules.specs.Constraints as law;
ghost use Rattle.rules.specs.Constraints.{Document};
ghost use Rattle.rules.specs.Tokens.{Token};
ghost use Rattle.tables_ids.specs.Column.{Records, Sought, column};
ghost use Rattle.constraints_states.specs.Steps.{turned, said, Always, Says, id_width};

use crate::Step;
use crate::states::{given, to_phase};
use constraints_tokens::names;
use rules::answers::{Fault, Refusal};
use rules::kinds::Key;
use rules::sizes::{Constraint, Leg};
use rules::tokens::{Phase, State};
use text_read::numbers::Unread;

// The ids of subnets stand alone in their table.
const ID_WIDTH: usize = 1;

// The number, or the number of the refusal.
pub fn number_said(number: Result<u32, Unread>) -> Result<u32, u8>
    ensures { result ≡ said number }
{
    match number {
        Ok(n) => Ok(n),
        Err(Unread::Beyond) => Err(Refusal::RANGE),
        Err(Unread::Malformed) => Err(Refusal::JSON_FORM),
    }
}

// Only a connection type is a string.
#[tactic(auto, unfolding(rules::specs::Constraints::string_value))]
pub fn string_value(word: &[u8], st: State) -> Result<Step, u8>
    ensures { Always (λ legs constraints tracks d t. law.string_value legs constraints tracks (type_named word.now) st d t) result }
{
    if st.key != Key::CONNECTION_TYPE {
        return Err(Refusal::JSON_FORM);
    }
    let connection = names::type_named(word);
    if connection == Constraint::NO_TYPE {
        return Err(Refusal::UNKNOWN);
    }
    Ok(Step::On(given(connection, st)))
}

// A string that the text's end cuts: too early where a string may stand.
#[tactic(auto, unfolding(rules::specs::Constraints::string_cut))]
pub fn string_cut(st: State, place: u32, next: u32) -> Fault
    ensures { (legs : List ℕ) (constraints tracks : ℕ) (d : Document) (t : Token)
        → t.place ≡ place → law.past t ≡ next → law.fault result.number result.place ≡ law.string_cut legs constraints tracks st d t }
{
    if st.key == Key::CONNECTION_TYPE {
        return Fault::new(Refusal::JSON_FORM, next);
    }
    Fault::new(Refusal::JSON_FORM, place)
}

// The row of a leg.
pub fn leg_value(
    legs: &[u32],
    n: usize,
    rising: usize,
    number: Result<u32, Unread>,
    st: State,
) -> Result<Step, u8>
    requires { Sought leg_width n rising legs.now × (n ≤ most_legs) }
    ensures { (constraints tracks : ℕ) (d : Document) (t : Token)
        → Says t number → turned t.place result d ≡ law.leg_value (column leg_width n legs.now) constraints tracks st d t }
{
    let id = number_said(number)?;
    match tables_ids::numbered(legs, Leg::WIDTH, n, rising, id) {
        Some(row) => Ok(Step::On(given(row as u32, st))),
        None => Err(Refusal::NOT_THERE),
    }
}

// The id of a subnet, which no subnet before it has.
pub fn subnet_value(
    ids: &[u32],
    n: usize,
    number: Result<u32, Unread>,
    st: State,
) -> Result<Step, u8>
    requires { Records id_width n ids.now }
    ensures { (legs : List ℕ) (constraints tracks : ℕ) (d : Document) (t : Token)
        → Says t number → column id_width n ids.now ≡ d.ids → turned t.place result d ≡ law.subnet_value legs constraints tracks st d t }
{
    let id = number_said(number)?;
    match tables_ids::row_of(ids, ID_WIDTH, n, id) {
        Some(_) => Err(Refusal::SEEN),
        None => Ok(Step::Named(to_phase(st, Phase::AfterValue), id)),
    }
}

#[tactic(auto, unfolding(rules::specs::Constraints::seconds_value))]
pub fn seconds_value(number: Result<u32, Unread>, st: State) -> Result<Step, u8>
    ensures { (legs : List ℕ) (constraints tracks : ℕ) (d : Document) (t : Token) → Says t number → turned t.place result d ≡ law.seconds_value legs constraints tracks st d t }
{
    let seconds = number_said(number)?;
    if Constraint::MOST_SECONDS < seconds {
        return Err(Refusal::RANGE);
    }
    Ok(Step::On(given(seconds, st)))
}

// A number by its key: of a leg, of a subnet, of seconds.
#[tactic(auto, unfolding(rules::specs::Constraints::number_value))]
pub fn number_value(
    legs: &[u32],
    n: usize,
    rising: usize,
    ids: &[u32],
    named: usize,
    number: Result<u32, Unread>,
    st: State,
) -> Result<Step, u8>
    requires { Sought leg_width n rising legs.now × ((n ≤ most_legs) × Records id_width named ids.now) }
    ensures { (constraints tracks : ℕ) (d : Document) (t : Token)
        → Says t number → column id_width named ids.now ≡ d.ids → turned t.place result d ≡ law.number_value (column leg_width n legs.now) constraints tracks st d t }
{
    match st.key {
        Key::CONNECTION_TYPE | Key::TRACK_IDS => Err(Refusal::JSON_FORM),
        Key::FIRST_LEG | Key::SECOND_LEG => leg_value(legs, n, rising, number, st),
        Key::SUBNET_ID => subnet_value(ids, named, number, st),
        _ => seconds_value(number, st),
    }
}
