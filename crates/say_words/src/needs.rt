// What an inequality that fails asks of the second leg: to depart, or to arrive, at a second or later, or at a second or earlier.
ghost use Rattle.std.specs.Prelude.{◌≡◌};
ghost use Rattle.say_words.specs.Needs.{needed_of};

use rules::answers::Violation;
use rules::kinds::Kind;
use rules::sizes::Configuration;
use verdict::records;

// Until when, or from when on.
#[derive(Clone, Copy)]
pub enum Bound {
    DepartsFrom(u64),
    ArrivesFrom(u64),
    DepartsBy(u64),
}

// The second inequality of a kind that has two.
const SECOND: u8 = 2;

pub fn needed(v: Violation, two: Configuration) -> Bound
    ensures { result ≡ needed_of v.kind v.inequality v.shortfall two }
{
    let short = v.shortfall as u64;
    let departure = two.departure as u64;
    if v.inequality != SECOND {
        return Bound::DepartsFrom(departure + short);
    }
    if v.kind == Kind::HEADWAY {
        return Bound::ArrivesFrom(departure + two.travel as u64 + short);
    }
    Bound::DepartsBy(records::beyond(departure, short))
}
