// Lines of a CSV text by their places: where one ends, where a row starts, and the row at a refusal's file and place. `solution` reads by the first,
// `files` and `merge_order` refuse by the second, and the entries hand back the third.
#![tactic(auto)]

pub mod ends; // where a line ends
pub mod rows; // the row at a file and place, and where it starts
pub mod places; // where a row of a text starts, and a refusal there

const LINE_FEED: u8 = b'\n';

const RETURN: u8 = b'\r';
