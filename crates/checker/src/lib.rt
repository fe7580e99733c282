// The public entries of Wagontulip, and nothing else. Each has no `requires`, and its promise determines its answer for every input. The exports for C and the small program call them.
#![tactic(auto)]

pub mod verdicts; // check
pub mod energies; // its energies too
pub mod merges; // merge, earlier or later
pub mod display; // the row at a refusal's file and place
