// The earliest timetable of files that were read (document 02, E10): searched for, put through the ordinary verdict, and written as a timetable. The order is 19, the verdict, 16.
#![tactic(auto)]

pub mod finding; // the search, over the tables of the files
pub mod settling; // the tables as they were read, the proposal in its own, and the verdict
pub mod writing; // the text
