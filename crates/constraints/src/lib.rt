// constraints.json read into its two tables, in one walk over its tokens, or two where its lists are not in the table's order. `files` reads it.
#![tactic(auto)]

ghost use Rattle.std.specs.Prelude.{◌≤◌};
ghost use Rattle.rules.specs.Limits.{leg_width, most_legs};
ghost use Rattle.tables_ids.specs.Column.{Apart};
ghost use Rattle.constraints.specs.Tables.{reading, Reads};

use constraints_states::Counts;
use constraints_tables::{PLACES, in_order, starts_of};
use rules::answers::{Fault, Refusal};
use rules::sizes::{Leg, Text};
use rules::tokens::Rules;
use tables_ids::rising_of;
use walks::walk;

pub mod effects; // what a step has for a table
pub mod walks; // the whole text

// The first walk judges the text, writes tracks and constraints as they come and counts those of each kind.
// Files mostly have them by kind; where a file does not, a second walk sorts them.
pub fn read_constraints(
    rules: Rules,
    text: &[u8],
    legs: &[u32],
    n: usize,
    constraints: &mut [u32],
    tracks: &mut [u32],
) -> Result<Counts, Fault>
    requires { Apart leg_width n legs.now × (n ≤ most_legs) }
    ensures { Reads (reading rules text.now legs.now n constraints.old tracks.old) constraints.old tracks.old result constraints.new tracks.new }
{
    if Text::MOST < text.len() {
        return Err(Fault::new(Refusal::TOO_LONG, 0));
    }
    let rising = rising_of(legs, Leg::WIDTH, n);
    let mut counts = [0usize; PLACES];
    let seen = walk(
        rules,
        text,
        legs,
        n,
        rising,
        constraints,
        tracks,
        &mut counts,
        false,
    )?;
    if in_order(&constraints[..], seen.constraints) {
        return Ok(seen);
    }
    let mut next = starts_of(counts);
    walk(
        rules,
        text,
        legs,
        n,
        rising,
        constraints,
        tracks,
        &mut next,
        true,
    )
}
