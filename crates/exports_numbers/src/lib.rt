// Answers as the numbers that C lends: a code, then values, then 0s; and how much was tested. Every function of `exports` ends in one of these.
#![tactic(auto)]

ghost use Rattle.std.specs.Prelude.{◌+◌, ◌≤◌, ◌≡◌, length};
ghost use Rattle.std.proofs.Math.Seq.{paste};
ghost use Rattle.exports_numbers.specs.Numbers.{lent_numbers, lent_values};
ghost use Rattle.exports_numbers.specs.Numbers as law;

use rules::answers::Tally;

pub mod answers; // of a check, a merge and a row
pub mod figures; // of a report
pub mod duties; // of rolling stock duties
pub mod rooms; // the room of each table
pub mod tallies; // how much was tested

// How many numbers are lent.
#[derive(Clone, Copy)]
pub struct Lent {}

impl Lent {
    // For a code and its values.
    pub const VALUES: usize = 16;

    // For how much was tested.
    pub const TESTS: usize = 8;

    pub const NUMBERS: usize = Lent::VALUES + Lent::TESTS;
}

pub type Numbers = [u64; Lent::NUMBERS];

const UNUSED: Numbers = [0; Lent::NUMBERS];

#[derive(Clone, Copy)]
pub struct Code {}

impl Code {
    pub const ACCEPTED: u64 = 0;

    pub const VIOLATED: u64 = 1;

    pub const REFUSED: u64 = 2;

    pub const ROW: u64 = 3;

    pub const BROKEN: u64 = 4;
}

// The values stand from a place on, and the other numbers are as they were.
fn placed(numbers: Numbers, place: usize, values: &[u64]) -> Numbers
    requires { place + length values.now ≤ lent_numbers }
    ensures { result ≡ paste numbers place values.now (length values.now) }
{
    let mut all = numbers;
    all[place..place + values.len()].copy_from_slice(values);
    all
}

// The values in front, and how much was tested in its place.
pub fn told(values: &[u64], tally: Tally) -> Numbers
    requires { length values.now ≤ lent_values }
    ensures { result ≡ law.told values.now tally }
{
    let numbers = placed(UNUSED, 0, values);
    let tests = tallies::of_tally(tally);
    placed(numbers, Lent::VALUES, &tests)
}

// What is no verdict has no tests.
pub fn untested(values: &[u64]) -> Numbers
    requires { length values.now ≤ lent_values }
    ensures { result ≡ law.untested values.now }
{
    told(values, Tally::none())
}
