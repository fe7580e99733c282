// What the arguments of the small program give: words, H and the edition, files; and how much room it lends. `small` reads its groups by it, `small_check` and `small_merge` lend by it.
#![tactic(auto)]

pub mod rooms; // how much room is lent
pub mod files; // files, read and written whole or not at all
pub mod words; // where each word of a group stands, and whether all are there
pub mod arguments; // a word of a group, read
