// The search for the earliest timetable (document 02, E10) over the tables that were read. It needs no room of its own: the choices stand in the leg table (`earliest_offer`) until all of them are known.
// `earliest_proposal` calls its three parts, one after the other.
#![tactic(auto)]

pub mod starts; // each leg's soonest offer
pub mod rounds; // rounds over the records: a leg that is held back is moved on, until every record is kept
pub mod leaving; // the choices in a table of their own, and the leg table as it was read
