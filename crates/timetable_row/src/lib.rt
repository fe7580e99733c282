// What is held of a timetable's or a solution's open row, byte by byte, and how it becomes a leg and its configurations. Both readers keep their row in it.
#![tactic(auto)]

pub mod number; // the open number
pub mod line; // the numbers before it, and what a row must keep
