// What a program says to people, as bytes: every function writes at a place of a lent buffer, as crate `text_write` does, and answers the place after the
// whole text. `say_answers` puts it into sentences.
#![tactic(auto)]

pub mod numbers; // whole numbers, with two or three digits at least
pub mod times; // seconds, and the clock that goes past midnight
pub mod energies; // kilojoules as MWh, and those of a quarter hour as MW
pub mod needs; // what a violation would have needed
pub mod names; // kinds, lists, inequalities, refusals and files, in document 01's words
pub mod tallies; // how many tests of a kind were made
pub mod bytes; // a byte of a file, so that no terminal acts on it
