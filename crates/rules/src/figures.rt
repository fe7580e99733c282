// The energies of an accepted solution, and the record that the operator's desk tool takes.

// The greatest quarter sum in kilojoules, and the first quarter that has it.
#[derive(Clone, Copy)]
pub struct Peak {
    pub kj: u64,
    pub quarter: u32,
}

// Before recuperation, and drawn.
#[derive(Clone, Copy)]
pub struct Peaks {
    pub before: Peak,
    pub drawn: Peak,
}

// Whole kilojoules, exact; the fluctuation is in kilowatts.
#[derive(Clone, Copy)]
pub struct Figures {
    pub before: u64,
    pub drawn: u64,
    pub lost: u64,
    pub fluctuation: i64,
    pub peaks: Peaks,
}

impl Figures {
    // The greatest energy that the sizes let through.
    pub const MOST: u64 = 2_359_296_000_000;

    // What turns kilojoules into megawatt hours, and those of a quarter hour into its average megawatts.
    pub const KJ_A_MWH: u64 = 3_600_000;

    pub const KJ_A_MW: u64 = 900_000;
}

// Before, drawn and lost in MWh, the drawn peak in MW.
#[derive(Clone, Copy)]
pub struct Desk {
    pub before: f64,
    pub drawn: f64,
    pub lost: f64,
    pub peak: f64,
}
