// The leaves of every reader: what stands in a part of a text. Each takes a whole slice, asks nothing of it, and promises what ../../rules/specs says.
// The readers of constraints.json and of solutions call them, and so do the words of the small program.
#![tactic(auto)]

pub mod pieces; // where a separator stands
pub mod words; // names
pub mod numbers; // digits, whole numbers
