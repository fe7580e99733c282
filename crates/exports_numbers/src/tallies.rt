// How much was tested, in numbers: the total, then a count for each kind, in document 01's order.
ghost use Rattle.std.specs.Prelude.{◌≡◌};
ghost use Rattle.exports_numbers.specs.Numbers.{tally_numbers};

use rules::answers::Tally;
use rules::kinds::Kind;

pub fn of_tally(tally: Tally) -> [u64; Tally::KINDS + 1]
    ensures { result ≡ tally_numbers tally }
{
    let counts = tally.kinds;
    [
        tally.total as u64,
        counts[Kind::NOT_OFFERED as usize] as u64,
        counts[Kind::HEADWAY as usize] as u64,
        counts[Kind::SINGLE_TRACK as usize] as u64,
        counts[Kind::DWELL as usize] as u64,
        counts[Kind::TURNAROUND as usize] as u64,
        counts[Kind::CONNECTION as usize] as u64,
    ]
}
