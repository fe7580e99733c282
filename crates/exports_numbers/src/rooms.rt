// The room of each table at the limits, so that neither header nor host repeats one.
ghost use Rattle.std.specs.Prelude.{◌≡◌};
ghost use Rattle.exports_numbers.specs.Numbers.{room_numbers};

use crate::Numbers;
use rules::sizes::{
    Choice, Configuration, Constraint, Horizon, Leg, Node, Profile, Sample, Subnet, Text, Track,
};

// In the order of the entries' parameters: legs, configurations, profiles, samples, constraints, tracks, choices, second choices, curves; the bytes of the text; nodes and balance.
pub fn at_limits() -> Numbers
    ensures { result ≡ room_numbers }
{
    let choices = Leg::MOST * Choice::WIDTH;
    let curves = Subnet::MOST * Horizon::MOST as usize;
    crate::untested(&[
        (Leg::MOST * Leg::WIDTH) as u64,
        (Configuration::MOST * Configuration::WIDTH) as u64,
        (Profile::MOST * Profile::WIDTH) as u64,
        Sample::MOST as u64,
        (Constraint::MOST * Constraint::WIDTH) as u64,
        (Track::MOST * Track::WIDTH) as u64,
        choices as u64,
        choices as u64,
        curves as u64,
        Text::MOST as u64,
        (Node::MOST * Node::WIDTH) as u64,
        Node::MOST as u64,
    ])
}
