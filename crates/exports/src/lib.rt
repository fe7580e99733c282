// The entries for C, whose answers go to 24 lent numbers. `exports_c` is the archive of them.
#![tactic(auto)]

pub mod verdicts; // wagontulip_check
pub mod energies; // wagontulip_energy
pub mod merges; // wagontulip_merge_earlier, wagontulip_merge_later
pub mod duty; // wagontulip_duties
pub mod display; // wagontulip_row
pub mod rooms; // wagontulip_rooms
