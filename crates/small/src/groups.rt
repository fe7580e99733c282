// The groups: what a group's word asks for, its files read, and the entry called.
ghost use Rattle.std.specs.Prelude.{◌≡◌, ◌≤◌, ◌&&◌, ◌+◌, ◌<◌, ◌^◌, length, is_some};
ghost use Rattle.std.specs.Option.{IfSome, IsSomeAnd};
ghost use Rattle.small_input.specs.Words.{of_solution, of_two};

use rules::answers::File;
use rules::outcomes::Direction;
use rules::stated::Stated;
use say_answers::say;
use small_check::{checks, energies};
use small_input::words::Words;
use small_input::{arguments, files, rooms};
use std::rt::{Env, Files};

#[derive(Clone, Copy)]
pub enum Asked {
    Verdict,
    Energies,
}

// What a group's word asks for.
#[derive(Clone, Copy)]
pub enum Entry {
    OfSolution(Asked),
    OfTwo(Direction),
}

pub fn entry_at(rt: &impl Env, at: usize) -> Option<Entry> {
    if arguments::is_word(rt, at, b"check") {
        return Some(Entry::OfSolution(Asked::Verdict));
    }
    if arguments::is_word(rt, at, b"energy") {
        return Some(Entry::OfSolution(Asked::Energies));
    }
    if arguments::is_word(rt, at, b"merge-earlier") {
        return Some(Entry::OfTwo(Direction::Earlier));
    }
    if arguments::is_word(rt, at, b"merge-later") {
        return Some(Entry::OfTwo(Direction::Later));
    }
    None
}

// The texts of a draft, each read whole.
#[derive(Clone, Copy)]
struct Texts<'a> {
    timetable: &'a [u8],
    profiles: &'a [u8],
    constraints: &'a [u8],
}

// What every group gives beside its solutions: H and the edition, where they are numbers, and the texts, where all could be read.
#[derive(Clone, Copy)]
struct Draft<'a> {
    h: Option<u32>,
    edition: Option<u32>,
    texts: Option<Texts<'a>>,
}

// None where one of the three could not be read whole.
fn all_read<'a>(
    timetable: Option<&'a [u8]>,
    profiles: Option<&'a [u8]>,
    constraints: Option<&'a [u8]>,
) -> Option<Texts<'a>>
    ensures all { is_some result ≡ (is_some timetable.entry && (is_some profiles.entry && is_some constraints.entry)) }
    ensures timetable_read { IfSome result (λ t. IsSomeAnd timetable.entry (λ s. t.timetable.now ≡ s.now)) }
    ensures profiles_read { IfSome result (λ t. IsSomeAnd profiles.entry (λ s. t.profiles.now ≡ s.now)) }
    ensures constraints_read { IfSome result (λ t. IsSomeAnd constraints.entry (λ s. t.constraints.now ≡ s.now)) }
{
    Some(Texts {
        timetable: timetable?,
        profiles: profiles?,
        constraints: constraints?,
    })
}

// The draft of the group whose word is argument `at`.
fn read_draft<'a>(
    rt: &(impl Files + Env + Print),
    at: usize,
    timetable: &'a mut [u8],
    profiles: &'a mut [u8],
    constraints: &'a mut [u8],
) -> Draft<'a>
    requires { at + of_solution < 2 ^ 64 }
    ensures timetable_fits { IfSome result.texts (λ t. length t.timetable.now ≤ length timetable.old) }
    ensures profiles_fits { IfSome result.texts (λ t. length t.profiles.now ≤ length profiles.old) }
    ensures constraints_fits { IfSome result.texts (λ t. length t.constraints.now ≤ length constraints.old) }
{
    let h = arguments::number(rt, at + Words::HORIZON);
    let edition = arguments::number(rt, at + Words::EDITION);
    let t = files::load(rt, at + Words::TIMETABLE, File::TIMETABLE, timetable);
    let p = files::load(rt, at + Words::PROFILES, File::PROFILES, profiles);
    let c = files::load(rt, at + Words::CONSTRAINTS, File::CONSTRAINTS, constraints);
    Draft {
        h,
        edition,
        texts: all_read(t, p, c),
    }
}

// What is stated. Where H or the edition is no number, there is no answer.
fn stated(rt: &impl Print, h: Option<u32>, edition: Option<u32>) -> Option<Stated> {
    let Some(horizon) = h else {
        say::no_answer(rt, b"H is no whole number");
        return None;
    };
    let Some(edition) = edition else {
        say::no_answer(rt, b"the edition is no whole number");
        return None;
    };
    Some(Stated { horizon, edition })
}

// The group whose word is argument `at`.
pub fn answer_solution(rt: &(impl Files + Env + Print), at: usize, asked: Asked)
    requires { at + of_solution < 2 ^ 64 }
{
    let mut timetable = rooms::text();
    let mut profiles = rooms::text();
    let mut constraints = rooms::text();
    let mut solution = rooms::text();
    let draft = read_draft(rt, at, &mut timetable, &mut profiles, &mut constraints);
    let read = files::load(rt, at + Words::SOLUTION, File::SOLUTION, &mut solution);
    let Some(stated) = stated(rt, draft.h, draft.edition) else {
        return;
    };
    let (Some(t), Some(solution)) = (draft.texts, read) else {
        say::answer(rt, b"none");
        return;
    };
    match asked {
        Asked::Verdict => checks::judge(
            rt,
            stated,
            t.timetable,
            t.profiles,
            t.constraints,
            solution,
        ),
        Asked::Energies => energies::report(
            rt,
            stated,
            t.timetable,
            t.profiles,
            t.constraints,
            solution,
        ),
    }
}

// The same for the group of a merge.
pub fn answer_two(rt: &(impl Files + Env + Print), at: usize, direction: Direction)
    requires { at + of_two < 2 ^ 64 }
{
    let mut timetable = rooms::text();
    let mut profiles = rooms::text();
    let mut constraints = rooms::text();
    let mut first = rooms::text();
    let mut second = rooms::text();
    let draft = read_draft(rt, at, &mut timetable, &mut profiles, &mut constraints);
    let a = files::load(rt, at + Words::SOLUTION, File::SOLUTION, &mut first);
    let b = files::load(
        rt,
        at + Words::SECOND_SOLUTION,
        File::SECOND_SOLUTION,
        &mut second,
    );
    let Some(stated) = stated(rt, draft.h, draft.edition) else {
        return;
    };
    let (Some(t), Some(first), Some(second)) = (draft.texts, a, b) else {
        say::answer(rt, b"none");
        return;
    };
    small_merge::merge(
        rt,
        direction,
        stated,
        t.timetable,
        t.profiles,
        t.constraints,
        first,
        second,
        at + Words::OUT,
    );
}
