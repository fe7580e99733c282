// The choices of two solutions, leg by leg (document 01, "Merged texts"): which of the two a merge takes, and whether their travel times are equal.
#![tactic(auto)]

ghost use Rattle.std.specs.Prelude.{◌≡◌};
ghost use Rattle.rules.specs.Merge.{unequal_from, chooser};
ghost use Rattle.tables_views.specs.View.{configurations_in};

use rules::outcomes::Direction;
use rules::sizes::Configuration;

// At equal departures the earlier merge takes the first file's choice, the later the second's.
pub fn choose(direction: Direction, a: Configuration, b: Configuration) -> Configuration
    ensures { result ≡ chooser direction a b }
{
    match direction {
        Direction::Earlier => if a.departure <= b.departure { a } else { b },
        Direction::Later => if a.departure <= b.departure { b } else { a },
    }
}

// 17 over the first `n` choices: the first row where the travel times of two solutions are unequal.
pub fn unequal(first: &[u32], second: &[u32], n: usize) -> Option<usize>
    ensures { result ≡ (unequal_from 0 (configurations_in n first.now) (configurations_in n second.now)) }
{
    for i in 0..n {
        let a = tables_views::configuration_at(first, i);
        let b = tables_views::configuration_at(second, i);
        if a.travel != b.travel {
            return Some(i);
        }
    }
    None
}
