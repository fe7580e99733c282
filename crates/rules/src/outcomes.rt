// What the entries give back, and which merge is asked for. Every crate that makes a part of an outcome names these; what is promised of each stands in ../specs/Promises.antt.
use crate::answers::{Answer, Tally, Told};
use crate::figures::{Desk, Figures};

// What `check` gives back: the answer, and how much was tested for it, which is nothing on a refusal.
#[derive(Clone, Copy)]
pub struct Checked {
    pub answer: Answer,
    pub tally: Tally,
}

// What `energy` gives back: short of acceptance all figures are 0.
#[derive(Clone, Copy)]
pub struct Report {
    pub answer: Answer,
    pub tally: Tally,
    pub figures: Figures,
    pub desk: Desk,
}

// What `merge` gives back: the length is that of the text it wrote, and 0 short of acceptance; a violation has its verdict's tally, and a text none.
#[derive(Clone, Copy)]
pub struct Merged {
    pub answer: Answer,
    pub tally: Tally,
    pub length: usize,
}

// What `earliest` gives back: the length is that of the timetable it wrote, the tally that of the proposal's verdict; both are 0 on a refusal.
#[derive(Clone, Copy)]
pub struct Proposed {
    pub answer: Answer,
    pub tally: Tally,
    pub length: usize,
}

// What `check_duties` gives back.
#[derive(Clone, Copy)]
pub struct Duties {
    pub answer: Told,
}

// Which of two choices `merge` takes at each leg. An enum, so that there is no wrong one.
#[derive(Clone, Copy)]
pub enum Direction {
    Earlier,
    Later,
}
