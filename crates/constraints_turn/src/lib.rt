// A token of constraints.json: its action, and what that leads to. One turn is one step of the walk in `constraints`.
#![tactic(auto)]

ghost use Rattle.std.specs.Prelude.{◌≡◌};
ghost use Rattle.rules.specs.Limits.{leg_width};
ghost use Rattle.rules.specs.Constraints.{Document, turn_of};
ghost use Rattle.tables_ids.specs.Column.{column};
ghost use Rattle.constraints_tokens.specs.Seen.{found};
ghost use Rattle.constraints_states.specs.Steps.{told, Tied, Ready};

use constraints_actions::action;
use constraints_states::states::to_phase;
use constraints_states::tracks::{track_number, tracks_open};
use constraints_states::values::{number_value, string_cut, string_value};
use constraints_states::{Counts, Room, Step};
use constraints_tokens::Token;
use records::{document_ends, key_name, list_name, record_ends, record_opens};
use rules::answers::{Fault, Refusal};
use rules::tokens::{Action, State};
use text_read::numbers::read_whole;

pub mod records; // names and braces

// A token, by the state and by what has been read: `tracks` holds the tracks so far, `ids` the ids of subnets. Of the n legs' ids the first `rising` rise.
pub fn turn(
    legs: &[u32],
    n: usize,
    rising: usize,
    tracks: &[u32],
    ids: &[u32],
    seen: Counts,
    room: Room,
    st: State,
    t: Token,
) -> Result<Step, Fault>
    requires { Ready legs.now n rising tracks.now ids.now seen t }
    ensures { (d : Document) → Tied seen tracks.now ids.now d → told result d ≡ turn_of (column leg_width n legs.now) room.constraints room.tracks st d (found t.entry) }
{
    let place = t.place;
    let step = match action(st.phase, t.class) {
        Action::Broken => return Err(Fault::new(Refusal::JSON_FORM, place)),
        Action::Early => return Err(Fault::new(Refusal::JSON_FORM, t.next)),
        Action::Goes(next) => Ok(Step::On(to_phase(st, next))),
        Action::ListName => list_name(t.word, st),
        Action::DocumentEnds => document_ends(st),
        Action::RecordOpens => record_opens(seen, room.constraints, st),
        Action::KeyName => key_name(t.word, st),
        Action::RecordEnds => record_ends(st),
        Action::StringValue => string_value(t.word, st),
        Action::StringCut => return Err(string_cut(st, place, t.next)),
        Action::NumberValue => number_value(legs, n, rising, ids, seen.ids, read_whole(t.word), st),
        Action::TracksOpen => tracks_open(st),
        Action::TrackNumber => track_number(
            tracks,
            seen.tracks,
            room.tracks,
            read_whole(t.word),
            st,
        ),
        Action::Finishes => Ok(Step::Finish(st)),
    };
    step.map_err(|number| Fault { number, place })
}
