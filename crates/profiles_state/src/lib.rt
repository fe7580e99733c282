// A byte of profiles.csv behind its header: the state of the reader, and what each byte makes of it, in quotes or not. `profiles` feeds it wherever no whole
// sample stands.
#![tactic(auto)]

pub mod marked; // in quotes or not
pub mod state; // of the contents
