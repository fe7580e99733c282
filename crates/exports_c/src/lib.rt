// The archive's whole surface: each entry of `exports` under its name for C, with the same clause. Each slice is a pointer and then its length; answers go to 24 lent
// numbers. The command and `host/replay` are linked to it.
#![tactic(auto)]

mod verdicts; // wagontulip_check
mod energies; // wagontulip_energy
mod merges; // wagontulip_merge_earlier, wagontulip_merge_later
mod duty; // wagontulip_duties
mod display; // wagontulip_row
mod rooms; // wagontulip_rooms
