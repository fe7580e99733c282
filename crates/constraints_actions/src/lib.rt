// What a token does in a phase: the table of ../../rules/specs/Constraints.antt, in the order of its rows; rows that say the same of a token share an arm. `constraints_turn` asks it of every token.
#![tactic(auto)]

ghost use Rattle.std.specs.Prelude.{◌≡◌};
ghost use Rattle.rules.specs.Constraints as law;

use rules::tokens::{Action, Class, Phase};

// The table. A token that may not stand in a phase ends the text too early, or its form is broken.
#[tactic(auto, unfolding(rules::specs::Constraints::action_of))]
pub fn action(phase: Phase, class: Class) -> Action
    ensures { result ≡ law.action_of phase class }
{
    match (phase, class) {
        (Phase::Document, Class::OpenBrace) => Action::Goes(Phase::FirstName),
        (Phase::FirstName | Phase::Name, Class::Quoted) => Action::ListName,
        (Phase::FirstName | Phase::AfterList, Class::CloseBrace) => Action::DocumentEnds,
        (Phase::NameColon, Class::Colon) => Action::Goes(Phase::ListOpen),
        (Phase::ListOpen, Class::OpenBracket) => Action::Goes(Phase::FirstRecord),
        (Phase::AfterList, Class::Comma) => Action::Goes(Phase::Name),
        (Phase::FirstRecord | Phase::Record, Class::OpenBrace) => Action::RecordOpens,
        (Phase::FirstRecord | Phase::AfterRecord, Class::CloseBracket) => {
            Action::Goes(Phase::AfterList)
        }
        (Phase::AfterRecord, Class::Comma) => Action::Goes(Phase::Record),
        (Phase::FirstKey | Phase::NextKey, Class::Quoted) => Action::KeyName,
        (Phase::FirstKey | Phase::AfterValue, Class::CloseBrace) => Action::RecordEnds,
        (Phase::KeyColon, Class::Colon) => Action::Goes(Phase::Value),
        (Phase::Value, Class::Run) => Action::NumberValue,
        (Phase::Value, Class::Quoted) => Action::StringValue,
        (Phase::Value, Class::Unclosed) => Action::StringCut,
        (Phase::Value, Class::OpenBracket) => Action::TracksOpen,
        (Phase::AfterValue, Class::Comma) => Action::Goes(Phase::NextKey),
        (Phase::FirstTrack | Phase::NextTrack, Class::Run) => Action::TrackNumber,
        (Phase::FirstTrack | Phase::AfterTrack, Class::CloseBracket) => {
            Action::Goes(Phase::AfterValue)
        }
        (Phase::AfterTrack, Class::Comma) => Action::Goes(Phase::NextTrack),
        (Phase::FirstName | Phase::Name, Class::Unclosed) => Action::Early,
        (Phase::FirstKey | Phase::NextKey, Class::Unclosed) => Action::Early,
        (Phase::Done, Class::End) => Action::Finishes,
        (_, Class::End) => Action::Early,
        _ => Action::Broken,
    }
}
