// What the energies of a solution are worked out with: a leg's samples and its subnet, sums cut at zero, quarters, and the desk tool's doubles. The figures are made of these.
#![tactic(auto)]

pub mod desk; // four doubles, each one division
pub mod quarters; // the 196 sums, carried through as one array
pub mod runs; // a leg's samples, its subnet, and where a second falls
pub mod sides; // what stands above zero, and what below
