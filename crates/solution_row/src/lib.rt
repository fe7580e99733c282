// A solution's row, which `solution` has read and asks about: by which number it is at fault after the rows before, and whether it is the draft's row.
#![tactic(auto)]

pub mod faults; // a row's tests
pub mod draft; // 14: the rows beside the draft's, and the answer after the last row
