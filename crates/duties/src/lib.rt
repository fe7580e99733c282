// Rolling stock duties (document 02, E13), as a whole: `entry` is public, and `exports` tells its answer to C.
#![tactic(auto)]

pub mod lines; // a line less its CR
pub mod steps; // a row after the rows before it
pub mod places; // a row's names put among the nodes
pub mod pass; // the first pass: rows and nodes
pub mod turns; // a row beside the row before it
pub mod judge; // the second pass: rules and balances
pub mod entry; // the whole
