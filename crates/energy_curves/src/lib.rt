// The curve table, subnet by subnet: `energy_figures` has the samples of each leg laid into it, and sums over it.
#![tactic(auto)]

pub mod windows; // over a window of seconds: zeros, and a run's samples added
pub mod sums; // over a whole horizon: what is drawn by quarters, and the fluctuation
