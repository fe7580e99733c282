// The three answers in words, on standard output. What is written of numbers, times, names and bytes is crate `say_words`'; the sentences stand here. The small program calls these for every group;
// nothing here decides anything.
#![tactic(auto)]

pub mod say; // standard output
pub mod refusals; // refused: number and meaning, file, place, row
pub mod readings; // accepted: how much was read
pub mod energies; // the energies of an accepted solution
pub mod violations; // violated: the inequality, both legs, what was needed
pub mod tallies; // how much was tested for a verdict

use rules::answers::{Answer, Tally};

// All of an answer but its last lines, by the tables as the checker left them; `row` is the row that a refusal shows.
pub fn tell(
    rt: &impl Print,
    answer: Answer,
    row: &[u8],
    legs: &[u32],
    configurations: &[u32],
    profiles: &[u32],
    constraints: &[u32],
    tracks: &[u32],
    choices: &[u32],
) {
    match answer {
        Answer::Accepted => {
            readings::accepted(rt, legs, configurations, profiles, constraints, tracks)
        }
        Answer::Violated(v) => violations::violated(rt, v, legs, constraints, choices),
        Answer::Refused(r) => refusals::refused(rt, r, row),
    }
}

// Of a verdict, how much was tested for it; then the last line.
pub fn close(rt: &impl Print, answer: Answer, tally: Tally) {
    match answer {
        Answer::Accepted => {
            tallies::tell(rt, tally);
            say::answer(rt, b"accepted")
        }
        Answer::Violated(_) => {
            tallies::tell(rt, tally);
            say::answer(rt, b"violated")
        }
        Answer::Refused(_) => say::answer(rt, b"refused"),
    }
}
