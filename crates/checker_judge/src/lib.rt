// What `check` and `energy` share: the files are read, then a solution, and it is judged. It promises its answer always, and the tables where nothing is refused.
#![tactic(auto)]

ghost use Rattle.std.specs.Prelude.{◌≡◌};
ghost use Rattle.rules.specs.Lent.{given, before, after};
ghost use Rattle.checker_judge.specs.Promise.{Stopped, judged_as, ReadAndJudged};

use rules::answers::{Answer, File, Refusal, Ruling, Tally};
use rules::stated::Stated;
use tables_lent::Counts;

// The answer with its tally, and the counts where nothing is refused.
#[derive(Clone, Copy)]
pub struct Judged {
    pub answer: Answer,
    pub tally: Tally,
    pub counts: Option<Counts>,
}

fn refused(refusal: Refusal) -> Judged
    ensures { Stopped refusal result }
{
    let tally = Tally::none();
    Judged {
        answer: Answer::Refused(refusal),
        tally,
        counts: None,
    }
}

fn ruled(ruling: Ruling, counts: Counts) -> Judged
    ensures { result ≡ judged_as ruling counts }
{
    let answer = ruling.answer;
    let tally = ruling.tally;
    Judged {
        answer,
        tally,
        counts: Some(counts),
    }
}

// The files, a solution, and its verdict.
pub fn read_and_judge(
    stated: Stated,
    timetable: &[u8],
    profiles: &[u8],
    constraints: &[u8],
    solution: &[u8],
    legs: &mut [u32],
    configurations: &mut [u32],
    profile_table: &mut [u32],
    samples: &mut [i32],
    constraint_table: &mut [u32],
    tracks: &mut [u32],
    choices: &mut [u32],
) -> Judged
    ensures { ReadAndJudged stated (given timetable profiles constraints) solution.now
        (before legs configurations profile_table samples constraint_table tracks) choices.old
        result (after legs configurations profile_table samples constraint_table tracks) choices.new }
{
    let filed = files::read_files(
        stated,
        timetable,
        profiles,
        constraints,
        legs,
        configurations,
        profile_table,
        samples,
        constraint_table,
        tracks,
    );
    match filed {
        Err(refusal) => refused(refusal),
        Ok(counts) => match solution_verdict::choose(
            solution,
            stated.horizon,
            File::SOLUTION,
            counts,
            legs,
            choices,
        ) {
            Err(refusal) => refused(refusal),
            Ok(()) => {
                let ruling = solution_verdict::judge_choices(
                    counts,
                    legs,
                    configurations,
                    constraint_table,
                    choices,
                    File::SOLUTION,
                );
                ruled(ruling, counts)
            }
        },
    }
}
