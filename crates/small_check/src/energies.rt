// `energy H EDITION TIMETABLE PROFILES CONSTRAINTS SOLUTION`.
use crate::checks;
use checker::energies;
use rules::answers::Answer;
use rules::figures::Figures;
use rules::stated::Stated;
use small_input::rooms;

// Only an accepted solution has energies.
fn show_figures(rt: &impl Print, answer: Answer, h: u32, g: Figures) {
    if let Answer::Accepted = answer {
        say_answers::energies::tell(rt, h, g);
    }
}

// Every table but the curves is lent full of a number that no field can have.
pub fn report<'a>(
    rt: &impl Print,
    stated: Stated,
    timetable: &'a [u8],
    profiles: &[u8],
    constraints: &[u8],
    solution: &'a [u8],
) {
    let mut legs = rooms::table();
    let mut configurations = rooms::table();
    let mut profile_table = rooms::table();
    let mut samples = rooms::samples();
    let mut constraint_table = rooms::table();
    let mut tracks = rooms::table();
    let mut choices = rooms::table();
    let mut curves = rooms::curves();
    let report = energies::energy(
        stated,
        timetable,
        profiles,
        constraints,
        solution,
        &mut legs,
        &mut configurations,
        &mut profile_table,
        &mut samples,
        &mut constraint_table,
        &mut tracks,
        &mut choices,
        &mut curves,
    );
    let answer = report.answer;
    let tally = report.tally;
    say_answers::tell(
        rt,
        answer,
        checks::refused_row(answer, timetable, solution),
        &legs,
        &configurations,
        &profile_table,
        &constraint_table,
        &tracks,
        &choices,
    );
    show_figures(rt, answer, stated.horizon, report.figures);
    say_answers::close(rt, answer, tally);
}
