// A solution's text, row by row, beside the draft's rows; a solution arrives whole. `solution_verdict` calls it for each solution.
#![tactic(auto)]

pub mod row; // a line by itself
pub mod after; // a row after those before it
pub mod reader; // a text
