// A duty's row: its form, its numbers, its faults by number.
#![tactic(auto)]

pub mod numbers; // whole numbers
pub mod forms; // names, course, type
pub mod faults; // the lowest fault
pub mod kept; // the rules that it keeps, and the lowest that it breaks
