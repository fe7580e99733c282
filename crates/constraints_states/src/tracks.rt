// The tracks of a subnet.
ghost use Rattle.std.specs.Prelude.{◌≡◌, List, ℕ};
ghost use Rattle.rules.specs.Limits.{track_width};
ghost use Rattle.rules.specs.Constraints as law;
ghost use Rattle.rules.specs.Constraints.{Document};
ghost use Rattle.rules.specs.Tokens.{Token};
ghost use Rattle.tables_ids.specs.Column.{Records, column, track_ids_of};
ghost use Rattle.constraints_states.specs.Steps.{turned, Always, Says};

use crate::Step;
use crate::states::to_phase;
use crate::values::number_said;
use rules::answers::Refusal;
use rules::kinds::Key;
use rules::sizes::Track;
use rules::tokens::{Phase, State};
use text_read::numbers::Unread;

#[tactic(auto, unfolding(rules::specs::Constraints::tracks_open))]
pub fn tracks_open(st: State) -> Result<Step, u8>
    ensures { Always (λ legs constraints tracks d t. law.tracks_open legs constraints tracks st d t) result }
{
    if st.key != Key::TRACK_IDS {
        return Err(Refusal::JSON_FORM);
    }
    Ok(Step::On(to_phase(st, Phase::FirstTrack)))
}

// A track that no subnet has listed before.
pub fn track_number(
    tracks: &[u32],
    n: usize,
    room: usize,
    number: Result<u32, Unread>,
    st: State,
) -> Result<Step, u8>
    requires { Records track_width n tracks.now }
    ensures { (legs : List ℕ) (constraints : ℕ) (d : Document) (t : Token)
        → Says t number → column track_width n tracks.now ≡ track_ids_of d.tracks → turned t.place result d ≡ law.track_number legs constraints room st d t }
{
    let id = number_said(number)?;
    if Track::MOST <= n {
        return Err(Refusal::COUNT);
    }
    if let Some(_) = tables_ids::row_of(tracks, Track::WIDTH, n, id) {
        return Err(Refusal::SEEN);
    }
    if room <= n {
        return Err(Refusal::ROOM);
    }
    Ok(Step::Listed(to_phase(st, Phase::AfterTrack), id))
}
