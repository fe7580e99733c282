// profiles.csv, read whole or in parts, into the tables of profiles and samples. `files` reads it.
#![tactic(auto)]

pub mod reader; // the text
