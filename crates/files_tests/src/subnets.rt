// 15: every leg's track is in a subnet.
ghost use Rattle.rules.specs.Limits.{leg_width, track_width};
ghost use Rattle.tables_ids.specs.Column.{Records};
ghost use Rattle.files_tests.specs.Subnets.{Fifteen};

use rules::sizes::{Leg, Track};

// The number of the first of n rows whose track is not among m tracks.
#[tactic(auto, using(crate::proofs::Fifteen::listing))]
pub fn subnet_fault(legs: &[u32], n: usize, tracks: &[u32], m: usize) -> Option<usize>
    requires { Records leg_width n legs.now × Records track_width m tracks.now }
    ensures { Fifteen legs.now n tracks.now m result }
{
    let rising = tables_ids::rising_of(tracks, Track::WIDTH, m);
    for i in 0..n {
        let track = legs[Leg::WIDTH * i + Leg::TRACK_AT];
        if let None = tables_ids::find(tracks, Track::WIDTH, m, rising, track) {
            return Some(i);
        }
    }
    None
}
