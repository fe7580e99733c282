// `check` and `energy`, called and shown: each lends its tables, and tells on standard output what the library answered. `small` calls one of them for a group.
#![tactic(auto)]

pub mod checks; // `check`
pub mod energies; // `energy`
