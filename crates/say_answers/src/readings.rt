// Accepted: how much was read.
use crate::say;
use rules::sizes::{Configuration, Constraint, Leg, Profile, Track};

// An acceptance of nothing must not look like one of something.
fn nothing_seen(rt: &impl Print, legs: usize, constraints: usize) {
    if legs == 0 {
        say::text(rt, b"there are no legs: no choice was looked at\n");
    }
    if constraints == 0 {
        say::text(
            rt,
            b"there are no constraints: no inequality was looked at\n",
        );
    }
}

// The tables as the checker left them.
pub fn accepted(
    rt: &impl Print,
    legs: &[u32],
    configurations: &[u32],
    profiles: &[u32],
    constraints: &[u32],
    tracks: &[u32],
) {
    let n = say_counts::entries(legs, Leg::WIDTH);
    let m = say_counts::entries(constraints, Constraint::WIDTH);
    let curves = say_counts::entries(profiles, Profile::WIDTH);
    say::sentence(
        rt,
        b"accepted: every choice is offered in the draft, and every inequality holds\n\
          read: legs %c, configurations %c, profiles %c, samples %c, constraints %c, tracks in subnets %c\n",
        &[
            n as u64,
            say_counts::entries(configurations, Configuration::WIDTH) as u64,
            curves as u64,
            say_counts::samples(profiles, curves),
            m as u64,
            say_counts::entries(tracks, Track::WIDTH) as u64,
        ],
    );
    nothing_seen(rt, n, m);
}
