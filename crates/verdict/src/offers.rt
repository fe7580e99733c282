// First each row in order: is the choice, all three numbers, in the draft's list?
ghost use Rattle.std.specs.Prelude.{false, ◌≡◌, ◌≤◌};
ghost use Rattle.rules.specs.Limits.{most_legs};
ghost use Rattle.rules.specs.Tally.{no_tests};
ghost use Rattle.rules.specs.Timetable as row;
ghost use Rattle.rules.specs.Verdict.{row_test, row_tests, violated, verdict_from, answer_of, ruling};
ghost use Rattle.tables_views.specs.View.{configuration_at, configurations_in, part_of, list_in, offers_in};
ghost use Rattle.verdict.specs.Within.{Fair};

use rules::answers::{Answer, Ruling, Tally, Violation};
use rules::kinds::Kind;
use rules::sizes::{Configuration, Leg};

pub fn same(a: Configuration, b: Configuration) -> bool
    ensures { result ≡ row.same a b }
{
    a.departure == b.departure && a.travel == b.travel && a.profile == b.profile
}

// Whether a leg's part of the configurations has the choice.
pub fn listed(configurations: &[u32], leg: Leg, choice: Configuration) -> bool
    ensures { result ≡ row.offers (part_of (configuration_at configurations.now) leg) choice }
{
    let first = leg.first as usize;
    let count = leg.count as usize;
    for j in 0..count {
        let offer = tables_views::configuration_at(configurations, first + j);
        if same(choice, offer) {
            return true;
        }
    }
    false
}

// Whether the draft's list of row `i` has the row's choice.
pub fn is_offered(legs: &[u32], configurations: &[u32], choices: &[u32], i: usize) -> bool
    ensures { result ≡ row.offers (list_in legs.now configurations.now i) (configuration_at choices.now i) }
{
    let leg = tables_views::leg_at(legs, i);
    let choice = tables_views::configuration_at(choices, i);
    listed(configurations, leg, choice)
}

// The answer that names a row whose choice is not offered.
pub fn not_offered(row: usize, file: u8) -> Answer
    requires { row ≤ most_legs }
    ensures { result ≡ answer_of file (violated (row_test row false)) }
{
    Answer::Violated(Violation::new(Kind::NOT_OFFERED, row as u32, 0, 0, file))
}

// Each row up to the first whose choice is not offered: one test each.
pub fn judge_rows(
    legs: &[u32],
    n: usize,
    configurations: &[u32],
    choices: &[u32],
    file: u8,
) -> Ruling
    requires { n ≤ most_legs }
    ensures { (result ≡ ruling file (verdict_from no_tests (row_tests 0 (offers_in n legs.now configurations.now) (configurations_in n choices.now)))) × Fair n result.tally }
{
    let mut tally = Tally::none();
    'rows: {
        for i in 0..n {
            tally = tally.with(Kind::NOT_OFFERED as usize, 1);
            if !is_offered(legs, configurations, choices, i) {
                let answer = not_offered(i, file);
                break 'rows Ruling { answer, tally };
            }
        }
        let answer = Answer::Accepted;
        Ruling { answer, tally }
    }
}
