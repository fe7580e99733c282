// Names and braces: lists and records open and end, and a record's keys are named.
ghost use Rattle.std.specs.Prelude.{◌≡◌, List, ℕ, ◌≤◌, length};
ghost use Rattle.rules.specs.Kinds.{headway, subnets, list_named, key_in};
ghost use Rattle.rules.specs.Constraints as law;
ghost use Rattle.rules.specs.Constraints.{Document};
ghost use Rattle.rules.specs.Tokens.{Token};
ghost use Rattle.constraints_states.specs.Steps.{turned, Always};

use constraints_states::states::{at_key, in_list, in_record, to_phase};
use constraints_states::{Counts, Step};
use constraints_tokens::names;
use rules::answers::Refusal;
use rules::kinds::{Key, Kind, kind_at};
use rules::sizes::{Constraint, Subnet};
use rules::tokens::{Lists, Phase, State};

fn list_bit(list: u8) -> u8
    requires { (headway ≤ list) × (list ≤ subnets) }
    ensures { result ≡ law.list_bit list }
{
    1 << (list - 1)
}

#[tactic(auto, unfolding(rules::specs::Constraints::list_name))]
pub fn list_name(word: &[u8], st: State) -> Result<Step, u8>
    ensures { Always (λ legs constraints tracks d t. law.list_name legs constraints tracks (list_named word.now) st d t) result }
{
    let list = names::list_named(word);
    if list == Lists::UNKNOWN {
        return Err(Refusal::UNKNOWN);
    }
    let bit = list_bit(list);
    if st.lists & bit != 0 {
        return Err(Refusal::REPEATED_OR_MISSING);
    }
    Ok(Step::On(in_list(list, bit, st)))
}

#[tactic(auto, unfolding(rules::specs::Constraints::document_ends))]
pub fn document_ends(st: State) -> Result<Step, u8>
    ensures { Always (λ legs constraints tracks d t. law.document_ends legs constraints tracks st d t) result }
{
    let required = st.rules.required;
    if st.lists & required != required {
        return Err(Refusal::REPEATED_OR_MISSING);
    }
    Ok(Step::On(to_phase(st, Phase::Done)))
}

// Constraints are counted over all lists, and so is their room.
#[tactic(auto, unfolding(rules::specs::Constraints::record_opens))]
pub fn record_opens(seen: Counts, room: usize, st: State) -> Result<Step, u8>
    ensures { (legs : List ℕ) (tracks : ℕ) (d : Document) (t : Token)
        → seen.constraints ≡ length d.constraints → seen.subnets ≡ d.opened → turned t.place result d ≡ law.record_opens legs room tracks st d t }
{
    if st.list == Lists::SUBNETS {
        if Subnet::MOST <= seen.subnets {
            return Err(Refusal::COUNT);
        }
        return Ok(Step::Opened(in_record(st)));
    }
    if Constraint::MOST <= seen.constraints {
        return Err(Refusal::COUNT);
    }
    if room <= seen.constraints {
        return Err(Refusal::ROOM);
    }
    Ok(Step::On(in_record(st)))
}

// The keys that a record of a list must carry.
#[tactic(auto, unfolding(rules::specs::Constraints::keys_of))]
fn keys_of(list: u8) -> u16
    ensures { result ≡ law.keys_of list }
{
    if list == Lists::SUBNETS {
        return Key::SUBNET_ID + Key::TRACK_IDS;
    }
    let place = usize::from(list.saturating_sub(1));
    if place < Kind::COUNT {
        return kind_at(place).keys;
    }
    0
}

// A key of another kind is unknown here.
#[tactic(auto, unfolding(rules::specs::Constraints::key_name))]
pub fn key_name(word: &[u8], st: State) -> Result<Step, u8>
    ensures { Always (λ legs constraints tracks d t. law.key_name legs constraints tracks (key_in st.rules.edition st.list word.now) st d t) result }
{
    let key = names::key_in(st.rules.edition, st.list, word);
    let keys = keys_of(st.list);
    if keys & key == 0 {
        return Err(Refusal::UNKNOWN);
    }
    if st.keys & key != 0 {
        return Err(Refusal::REPEATED_OR_MISSING);
    }
    Ok(Step::On(at_key(key, st)))
}

#[tactic(auto, unfolding(rules::specs::Constraints::record_ends))]
pub fn record_ends(st: State) -> Result<Step, u8>
    ensures { Always (λ legs constraints tracks d t. law.record_ends legs constraints tracks st d t) result }
{
    let keys = keys_of(st.list);
    if st.keys != keys {
        return Err(Refusal::REPEATED_OR_MISSING);
    }
    let after = to_phase(st, Phase::AfterRecord);
    if st.list == Lists::SUBNETS {
        return Ok(Step::On(after));
    }
    Ok(Step::Emit(after))
}
