// A byte of a row that is not plain. Where it goes to the contents, behind quotes or a CR, the mark alone moves and the contents take it as a plain one: so `state::step` has one caller.
ghost use Rattle.std.specs.Prelude.{◌≡◌};
ghost use Rattle.profiles_state.specs.Holds.{is_empty, list_begins, begins, broken_at, Passes};

use crate::state::State;
use csv_marks::{Act, Mark};
use profiles_row::number::Number;
use rules::answers::Refusal;

fn is_empty(n: Number) -> bool
    ensures { result ≡ is_empty n }
{
    matches!(n, Number::Empty)
}

// Nothing of the open list is read.
fn list_begins(count: u32, negative: bool, n: Number) -> bool
    ensures { result ≡ list_begins count negative n }
{
    count == 0 && !negative && is_empty(n)
}

// Nothing of the open field is read.
fn begins(state: State) -> bool
    ensures { result ≡ begins state }
{
    match state {
        State::Id(_, n) => is_empty(n),
        State::Whole(_, l, negative, n) => list_begins(l.count, negative, n),
        State::Fraction(_, _, _) | State::Stopped(_, _) => false,
    }
}

// The open row is none.
fn broken(state: State) -> State
    ensures { result ≡ broken_at state }
{
    match state {
        State::Id(past, _) | State::Whole(past, _, _, _) | State::Fraction(past, _, _) => {
            State::Stopped(Refusal::ROW_FORM, past.place)
        }
        // Made anew (speed): as in `state::step`.
        State::Stopped(number, place) => State::Stopped(number, place),
    }
}

// After a byte that is not plain, and how many bytes it took: one that goes to the contents is left for them.
// Kept (no plainer): the state and the mark are told either way, and the step is a number of bytes.
#[derive(Clone, Copy)]
pub struct Passed {
    pub state: State,
    pub mark: Mark,
    pub step: usize,
}

// A byte that moves the mark, alone or before the contents take it, or breaks the row.
pub fn pass(state: State, mark: Mark, b: u8) -> Passed
    ensures { Passes state mark b result }
{
    match csv_marks::turn(mark, b, begins(state)) {
        Act::To(m) => Passed {
            state,
            mark: m,
            step: 1,
        },
        Act::Content(m) => Passed {
            state,
            mark: m,
            step: 0,
        },
        Act::Broken => Passed {
            state: broken(state),
            mark,
            step: 1,
        },
    }
}
