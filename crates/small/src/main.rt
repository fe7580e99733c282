// The small program of document 01: it runs the library on texts of up to 16 KiB each. Its arguments come in groups,
//     check H EDITION TIMETABLE PROFILES CONSTRAINTS SOLUTION
//     energy H EDITION TIMETABLE PROFILES CONSTRAINTS SOLUTION
//     merge-earlier H EDITION TIMETABLE PROFILES CONSTRAINTS FIRST SECOND OUT
//     merge-later H EDITION TIMETABLE PROFILES CONSTRAINTS FIRST SECOND OUT
// and each group is answered in turn: the label, what was found, and a last line that a script can read.
#![tactic(auto)]

mod groups; // the groups

ghost use Rattle.std.specs.Prelude.{◌+◌, ◌<◌, ◌^◌};

use groups::{Asked, Entry};
use rules::outcomes::Direction;
use say_answers::say;
use small_input::words::Words;
use small_input::{arguments, words};
use std::rt::{Env, Files};

// The group that starts at argument `at`, of the `left` that are left: how many it takes.
fn solution_group(rt: &(impl Files + Env + Print), at: usize, left: usize, asked: Asked) -> usize
    requires left_nonzero { 0 < left }
    requires left_bound { at + left < 2 ^ 64 }
    ensures { 0 < result }
{
    if words::is_whole(Words::OF_SOLUTION, left) {
        groups::answer_solution(rt, at, asked);
        return Words::OF_SOLUTION;
    }
    say::no_answer(
        rt,
        b"arguments are missing: check or energy, H EDITION TIMETABLE PROFILES CONSTRAINTS SOLUTION",
    );
    left
}

fn merge_group(
    rt: &(impl Files + Env + Print),
    at: usize,
    left: usize,
    direction: Direction,
) -> usize
    requires left_nonzero { 0 < left }
    requires left_bound { at + left < 2 ^ 64 }
    ensures { 0 < result }
{
    if words::is_whole(Words::OF_TWO, left) {
        groups::answer_two(rt, at, direction);
        return Words::OF_TWO;
    }
    say::no_answer(
        rt,
        b"arguments are missing: merge-earlier or merge-later, H EDITION TIMETABLE PROFILES CONSTRAINTS FIRST SECOND OUT",
    );
    left
}

// What follows a word that is not known cannot be told apart.
fn answer_group(rt: &(impl Files + Env + Print), at: usize, left: usize) -> usize
    requires left_nonzero { 0 < left }
    requires left_bound { at + left < 2 ^ 64 }
    ensures { 0 < result }
{
    say::label(rt);
    match groups::entry_at(rt, at) {
        Some(Entry::OfSolution(asked)) => solution_group(rt, at, left, asked),
        Some(Entry::OfTwo(direction)) => merge_group(rt, at, left, direction),
        None => {
            say::no_answer(
                rt,
                b"the word is not known: check, energy, merge-earlier or merge-later",
            );
            left
        }
    }
}

fn main(rt: HostRuntime) {
    let count = arguments::count(&rt);
    if count <= 1 {
        say::label(&rt);
        say::no_answer(
            &rt,
            b"no word is given: check, energy, merge-earlier or merge-later",
        );
        return;
    }
    let mut at = 1;
    // Kept (no plainer): a turn goes on by the words that its group took, which no range does.
    while at < count {
        let left = count - at;
        let taken = answer_group(&rt, at, left);
        if left < taken {
            return;
        }
        at += taken;
    }
}
