// 12, 13 and 15, over the timetable's rows: the first row at fault by the profiles, or by the subnets. `files` asks them in document 01's order.
#![tactic(auto)]

pub mod lists; // 12 and 13
pub mod subnets; // 15
