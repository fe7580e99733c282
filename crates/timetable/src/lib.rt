// timetable.csv, read byte by byte, whole or in parts, into the tables of legs and configurations. `files` reads the draft by it.
#![tactic(auto)]

pub mod row; // a byte of a row, and a row that is over
pub mod marked; // where a field begins, for the quotes about it
pub mod entries; // whole entries of a list
pub mod reader; // a text
