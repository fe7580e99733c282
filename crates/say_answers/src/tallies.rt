// How much was tested for a verdict: the total, and the count of each kind that was tested.
use crate::say;
use rules::answers::Tally;

// A comma stands before each but the first.
fn add(rt: &impl Print, first: bool, kind: u8, count: u32) {
    if !first {
        say::text(rt, b", ");
    }
    say::tests(rt, kind, count);
}

fn counts(rt: &impl Print, kinds: [u32; Tally::KINDS]) {
    let mut first = true;
    for (kind, &count) in kinds.iter().enumerate() {
        if 0 < count {
            add(rt, first, kind as u8, count);
            first = false;
        }
    }
}

pub fn tell(rt: &impl Print, tally: Tally) {
    if tally.total == 0 {
        say::text(rt, b"tested: nothing\n");
        return;
    }
    say::sentence(rt, b"tested: %n (", &[tally.total as u64]);
    counts(rt, tally.kinds);
    say::text(rt, b")\n");
}
