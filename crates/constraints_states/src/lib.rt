// What a token of constraints.json leads to, and how much has been read: the state of the walk, by value.
#![tactic(auto)]

ghost use Rattle.std.specs.Prelude.{◌≡◌, ◌/◌};
ghost use Rattle.rules.specs.Limits.{constraint_width, track_width};
ghost use Rattle.rules.specs.Constraints as law;
ghost use Rattle.constraints_states.specs.Steps.{counts_of};

use rules::sizes::{Constraint, Track};
use rules::tokens::State;

pub mod states; // the first state, and the state after it
pub mod values; // strings and numbers
pub mod tracks; // the tracks of a subnet

// What a token leads to, where it is not at fault.
#[derive(Clone, Copy)]
pub enum Step {
    // On, with nothing for a table.
    On(State),
    // The record of a constraint is whole.
    Emit(State),
    // A subnet is opened, has its id, lists a track.
    Opened(State),
    Named(State, u32),
    Listed(State, u32),
    Finish(State),
}

// How much has been read: constraints, tracks, subnets that were opened, and ids of subnets.
#[derive(Clone, Copy)]
pub struct Counts {
    pub constraints: usize,
    pub tracks: usize,
    pub subnets: usize,
    pub ids: usize,
}

impl Counts {
    pub fn none() -> Self
        ensures { result ≡ counts_of law.empty }
    {
        Counts {
            constraints: 0,
            tracks: 0,
            subnets: 0,
            ids: 0,
        }
    }
}

// How many records the lent tables take.
#[derive(Clone, Copy)]
pub struct Room {
    pub constraints: usize,
    pub tracks: usize,
}

impl Room {
    // By the lengths of the tables.
    pub fn of(constraints: usize, tracks: usize) -> Self
        ensures { (result.constraints ≡ constraints / constraint_width) × (result.tracks ≡ tracks / track_width) }
    {
        Room {
            constraints: constraints / Constraint::WIDTH,
            tracks: tracks / Track::WIDTH,
        }
    }
}
