// `check H EDITION TIMETABLE PROFILES CONSTRAINTS SOLUTION`.
use checker::{display, verdicts};
use rules::answers::Answer;
use rules::stated::Stated;
use small_input::rooms;

// The row that a refusal shows; empty for another answer.
pub fn refused_row<'a>(answer: Answer, timetable: &'a [u8], solution: &'a [u8]) -> &'a [u8] {
    match answer {
        Answer::Refused(r) => display::row_at(timetable, solution, r.file, r.place),
        Answer::Violated(_) => &timetable[0..0],
        Answer::Accepted => &timetable[0..0],
    }
}

// Every table is lent full of a number that no field can have.
pub fn judge<'a>(
    rt: &impl Print,
    stated: Stated,
    timetable: &'a [u8],
    profiles: &[u8],
    constraints: &[u8],
    solution: &'a [u8],
) {
    let mut legs = rooms::table();
    let mut configurations = rooms::table();
    let mut profile_table = rooms::table();
    let mut samples = rooms::samples();
    let mut constraint_table = rooms::table();
    let mut tracks = rooms::table();
    let mut choices = rooms::table();
    let checked = verdicts::check(
        stated,
        timetable,
        profiles,
        constraints,
        solution,
        &mut legs,
        &mut configurations,
        &mut profile_table,
        &mut samples,
        &mut constraint_table,
        &mut tracks,
        &mut choices,
    );
    let answer = checked.answer;
    let tally = checked.tally;
    say_answers::tell(
        rt,
        answer,
        refused_row(answer, timetable, solution),
        &legs,
        &configurations,
        &profile_table,
        &constraint_table,
        &tracks,
        &choices,
    );
    say_answers::close(rt, answer, tally);
}
