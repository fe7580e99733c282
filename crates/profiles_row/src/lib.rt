// What a row of profiles.csv is made of: a sample's kilowatts, the row's numbers, its tests. Both ways of reading a sample end in it.
#![tactic(auto)]

pub mod number; // a whole number that is open
pub mod row; // the open row, its first fault and its entry
pub mod sample; // a sample in kW
