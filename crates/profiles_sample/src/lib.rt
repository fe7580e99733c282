// Whole samples of a list at once, and a whole id in quotes: numbers in registers, the state touched behind them alone. They are the fast ways of `profiles`; what is neither is left for `profiles_state::state::step`.
#![tactic(auto)]

ghost use Rattle.std.specs.Prelude.{◌≤◌, ◌<◌, length, false};
ghost use Rattle.profiles_sample.specs.Quick.{Runs, Points, Spaces, Fractions, Signs, Samples};
ghost use Rattle.profiles_sample.specs.Heads.{Joins, Heads};

use profiles_row::number;
use profiles_row::number::Number;
use profiles_row::sample::Tail;

// Digits after others: the number that they make, and the place behind them.
#[derive(Clone, Copy)]
pub struct Run {
    pub value: u32,
    pub next: usize,
}

#[tactic(auto, using(crate::proofs::Looks::quick))]
fn digit_run(part: &[u8], from: usize, value: u32) -> Run
    requires { from ≤ length part.now }
    ensures { Runs part.now from value result }
{
    let mut v = value;
    let mut i = from;
    // Kept (speed): with a range plain rows of few samples take a third longer, past the bar of docs/BENCHMARK.md.
    while i < part.len() {
        let b = part[i];
        if b < b'0' || b'9' < b {
            return Run { value: v, next: i };
        }
        v = number::push(v, b);
        i += 1;
    }
    Run { value: v, next: i }
}

// A whole number and its point: the number, and the place behind the point.
#[derive(Clone, Copy)]
pub struct Pointed {
    pub whole: u32,
    pub next: usize,
}

#[tactic(auto, using(crate::proofs::Looks::quick))]
fn point_at(part: &[u8], from: usize, n: Number) -> Option<Pointed>
    ensures { Points part.now from n result }
{
    if *part.get(from)? != b'.' {
        return None;
    }
    let whole = number::number_end(n)?;
    Some(Pointed {
        whole,
        next: from + 1,
    })
}

#[tactic(auto, using(crate::proofs::Looks::quick))]
fn whole_at(part: &[u8], from: usize) -> Option<Pointed>
    ensures { Points part.now from Number.Empty result }
{
    let b = *part.get(from)?;
    if b < b'0' || b'9' < b {
        return None;
    }
    if b == b'0' {
        return point_at(part, from + 1, Number::Zero);
    }
    let run = digit_run(part, from + 1, u32::from(b - b'0'));
    point_at(part, run.next, Number::Digits(run.value))
}

// A sample up to the space behind it, and the space's place.
#[derive(Clone, Copy)]
pub struct Spaced {
    pub tail: Tail,
    pub next: usize,
}

#[tactic(auto, using(crate::proofs::Looks::quick))]
fn space_at(
    b: u8,
    next: usize,
    negative: bool,
    whole: u32,
    digits: u32,
    value: u32,
) -> Option<Spaced>
    ensures { Spaces b next negative whole digits value result }
{
    if b != b' ' {
        return None;
    }
    if digits == 0 {
        return None;
    }
    let tail = Tail {
        negative,
        whole,
        digits,
        value,
    };
    Some(Spaced { tail, next })
}

// The digits past a point, three at most, and a space.
#[tactic(auto, using(crate::proofs::Looks::quick))]
fn fraction_at(part: &[u8], from: usize, negative: bool, whole: u32) -> Option<Spaced>
    requires { from ≤ length part.now }
    ensures { Fractions part.now from negative whole result }
{
    let mut digits: u32 = 0;
    let mut value: u32 = 0;
    let mut i = from;
    // Kept (speed): as in `digit_run`.
    while i < part.len() {
        let b = part[i];
        if b < b'0' {
            return space_at(b, i, negative, whole, digits, value);
        }
        if b'9' < b || Tail::MOST_DIGITS <= digits {
            return None;
        }
        value = number::push(value, b);
        digits += 1;
        i += 1;
    }
    None
}

#[tactic(auto, using(crate::proofs::Looks::quick))]
fn unsigned_at(part: &[u8], from: usize, negative: bool) -> Option<Spaced>
    ensures { Samples part.now from negative result }
{
    let pointed = whole_at(part, from)?;
    fraction_at(part, pointed.next, negative, pointed.whole)
}

// Whether a sample begins with a minus, and the place of its first digit.
// Kept (no plainer): the place is told with a minus and without.
#[derive(Clone, Copy)]
pub struct Sign {
    pub negative: bool,
    pub next: usize,
}

#[tactic(auto, using(crate::proofs::Looks::quick))]
fn sign_at(part: &[u8], from: usize) -> Sign
    requires { from < length part.now }
    ensures { Signs part.now from result }
{
    if part[from] == b'-' {
        return Sign {
            negative: true,
            next: from + 1,
        };
    }
    Sign {
        negative: false,
        next: from,
    }
}

#[tactic(auto, using(crate::proofs::Looks::quick))]
pub fn sample_at(part: &[u8], from: usize) -> Option<Spaced>
    ensures { Samples part.now from false result }
{
    if part.len() <= from {
        return None;
    }
    let sign = sign_at(part, from);
    unsigned_at(part, sign.next, sign.negative)
}

// An id in quotes, its comma and the quote that opens the list: the id, and the place behind that quote.
#[derive(Clone, Copy)]
pub struct Headed {
    pub id: u32,
    pub next: usize,
}

impl Headed {
    // A quote and a digit.
    const BEFORE: usize = 2;

    // A quote, a comma and a quote.
    const BEHIND: usize = 3;
}

// What stands behind the digits of an id in quotes.
#[tactic(auto, using(crate::proofs::Heads::heading))]
fn join_at(part: &[u8], from: usize, id: u32) -> Option<Headed>
    ensures { Joins part.now from id result }
{
    if part.len() < Headed::BEHIND {
        return None;
    }
    if part.len() - Headed::BEHIND < from {
        return None;
    }
    if part[from] != b'"' {
        return None;
    }
    if part[from + 1] != b',' {
        return None;
    }
    if part[from + 2] != b'"' {
        return None;
    }
    Some(Headed {
        id,
        next: from + Headed::BEHIND,
    })
}

pub fn head_at(part: &[u8], from: usize) -> Option<Headed>
    ensures { Heads part.now from result }
{
    if part.len() < Headed::BEFORE {
        return None;
    }
    if part.len() - Headed::BEFORE < from {
        return None;
    }
    if part[from] != b'"' {
        return None;
    }
    let b = part[from + 1];
    if b <= b'0' {
        return None;
    }
    if b'9' < b {
        return None;
    }
    let run = digit_run(part, from + Headed::BEFORE, u32::from(b - b'0'));
    join_at(part, run.next, run.value)
}
