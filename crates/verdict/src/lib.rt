// The verdict over the tables: first each row in order, then the constraint table in order, up to the first inequality that fails; and how many tests that took, of each kind. `solution_verdict` asks it about a solution that was read.
#![tactic(auto)]

ghost use Rattle.std.specs.Prelude.{◌≡◌};
ghost use Rattle.rules.specs.Verdict.{verdict, ruling};
ghost use Rattle.tables_views.specs.View.{offers_in, constraints_in, configurations_in};
ghost use Rattle.verdict.specs.Within.{Within};

use rules::answers::{Answer, Ruling};

pub mod offers; // each row's choice against the draft's list
pub mod records; // each record's inequalities

// Of `n` rows and `m` records; the answer names the solution's file.
pub fn judge(
    legs: &[u32],
    n: usize,
    configurations: &[u32],
    constraints: &[u32],
    m: usize,
    choices: &[u32],
    file: u8,
) -> Ruling
    requires { Within (constraints_in m constraints.now) (configurations_in n choices.now) }
    ensures { result ≡ ruling file (verdict (offers_in n legs.now configurations.now) (constraints_in m constraints.now) (configurations_in n choices.now)) }
{
    let rows = offers::judge_rows(legs, n, configurations, choices, file);
    let answer = rows.answer;
    let tally = rows.tally;
    match answer {
        Answer::Accepted => records::judge_records(constraints, m, choices, n, file, tally),
        Answer::Violated(_) => rows,
        Answer::Refused(_) => rows,
    }
}
