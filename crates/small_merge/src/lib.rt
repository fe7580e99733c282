// `merge-earlier H EDITION TIMETABLE PROFILES CONSTRAINTS FIRST SECOND OUT`, and `merge-later`: the merged timetable goes to OUT and the report to standard output.
#![tactic(auto)]

use checker::{display, merges};
use rules::answers::{Answer, File, Tally};
use rules::outcomes::Direction;
use rules::stated::Stated;
use say_answers::say;
use small_input::{files, rooms};
use std::rt::{Env, Files};

// The row that a refusal shows, in whichever of the three texts; empty for another answer.
fn refused_row<'a>(
    answer: Answer,
    timetable: &'a [u8],
    first: &'a [u8],
    second: &'a [u8],
) -> &'a [u8] {
    match answer {
        Answer::Refused(r) => if r.file == File::SECOND_SOLUTION {
            display::row_at(timetable, second, File::SOLUTION, r.place)
        } else {
            display::row_at(timetable, first, r.file, r.place)
        },
        Answer::Violated(_) => &timetable[0..0],
        Answer::Accepted => &timetable[0..0],
    }
}

// The choices that a violation speaks of: those of the solution that it names.
fn shown_choices<'a>(answer: Answer, first: &'a [u32], second: &'a [u32]) -> &'a [u32] {
    match answer {
        Answer::Violated(v) => if v.file == File::SECOND_SOLUTION {
            second
        } else {
            first
        },
        Answer::Accepted => first,
        Answer::Refused(_) => first,
    }
}

// Writes an accepted merge to the file that argument `out` names. Where that fails there is no answer.
fn hand_over(rt: &(impl Files + Env + Print), out: usize, text: &[u8], length: usize) {
    if length <= text.len() && files::store(rt, out, &text[0..length]) {
        say::answer(rt, b"accepted");
    } else {
        say::answer(rt, b"none");
    }
}

// A merge that is written is a text and no verdict: nothing is said of tests.
fn close(
    rt: &(impl Files + Env + Print),
    answer: Answer,
    tally: Tally,
    out: usize,
    text: &[u8],
    length: usize,
) {
    match answer {
        Answer::Accepted => hand_over(rt, out, text, length),
        Answer::Violated(_) => say_answers::close(rt, answer, tally),
        Answer::Refused(_) => say_answers::close(rt, answer, tally),
    }
}

// Every table is lent full of a number that no field can have. The text has room for any merge: a merged row differs from the draft's in its nominal alone,
// which stands in its list too, so it is not twice as long.
pub fn merge<'a>(
    rt: &(impl Files + Env + Print),
    direction: Direction,
    stated: Stated,
    timetable: &'a [u8],
    profiles: &[u8],
    constraints: &[u8],
    first: &'a [u8],
    second: &'a [u8],
    out: usize,
) {
    let mut legs = rooms::table();
    let mut configurations = rooms::table();
    let mut profile_table = rooms::table();
    let mut samples = rooms::samples();
    let mut constraint_table = rooms::table();
    let mut tracks = rooms::table();
    let mut choices = rooms::table();
    let mut second_choices = rooms::table();
    let mut text = rooms::merged();
    let merged = merges::merge(
        direction,
        stated,
        timetable,
        profiles,
        constraints,
        first,
        second,
        &mut legs,
        &mut configurations,
        &mut profile_table,
        &mut samples,
        &mut constraint_table,
        &mut tracks,
        &mut choices,
        &mut second_choices,
        &mut text,
    );
    let answer = merged.answer;
    let tally = merged.tally;
    say_answers::tell(
        rt,
        answer,
        refused_row(answer, timetable, first, second),
        &legs,
        &configurations,
        &profile_table,
        &constraint_table,
        &tracks,
        shown_choices(answer, &choices, &second_choices),
    );
    close(rt, answer, tally, out, &text, merged.length);
}
