// The fields of a duty's row: each function takes a whole slice and asks nothing of it.
#![tactic(auto)]

pub mod contents; // a field's content: behind a quote or not
pub mod fields; // field k of a line
pub mod names; // names, parts of a text
pub mod clocks; // times of the day as texts

const COMMA: u8 = b',';

const QUOTE: u8 = b'"';
