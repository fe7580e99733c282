// What is lent to an entry: how many entries its tables hold once `files` has read, and what an answer leaves in it, for the entries to end by.
#![tactic(auto)]

pub mod refusals; // after a refusal tables and choices hold only a number that no field can have (demand 1)
pub mod acceptance; // curves and texts stand only where the answer is accepted

// How many entries the tables hold.
#[derive(Clone, Copy)]
pub struct Counts {
    pub legs: usize,
    pub configurations: usize,
    pub profiles: usize,
    pub samples: usize,
    pub constraints: usize,
    pub tracks: usize,
    pub subnets: usize,
}
