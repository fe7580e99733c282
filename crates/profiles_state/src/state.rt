// A byte of a row's contents: where it takes what is read so far.
ghost use Rattle.std.specs.Prelude.{ℕ, ◌≤◌, ◌<◌};
ghost use Rattle.rules.specs.Limits.{most_text};
ghost use Rattle.rules.specs.Bytes.{digit_zero, digit_nine, minus, point};
ghost use Rattle.profiles_row.specs.Row.{Ending};
ghost use Rattle.profiles_state.specs.Holds.{Live, Steps, Free, Ends};

use profiles_row::number::Number;
use profiles_row::row::{Listed, Past};
use profiles_row::sample::Tail;
use profiles_row::{number, row, sample};
use rules::answers::Refusal;
use rules::sizes::Profile;

// Where the next byte falls: into an id, the whole part of a sample, its digits past the point; or after the first fault.
// Kept (no plainer): each is a state of its own, and the last holds what it will be refused by.
#[derive(Clone, Copy)]
pub enum State {
    Id(Past, Number),
    Whole(Past, Listed, bool, Number),
    Fraction(Past, Listed, Tail),
    Stopped(u8, u32),
}

fn id_digit(past: Past, n: Number, b: u8) -> State
    requires { (digit_zero ≤ b) × (b ≤ digit_nine) }
    ensures { (at : ℕ) → Free at (State.Id past n) b result }
{
    match number::number_step(n, b) {
        Some(m) => State::Id(past, m),
        None => State::Stopped(Refusal::ROW_FORM, past.place),
    }
}

fn id_step(past: Past, n: Number, b: u8) -> State
    ensures { (at : ℕ) → Free at (State.Id past n) b result }
{
    let place = past.place;
    if b == b',' {
        return match number::number_end(n) {
            Some(id) => State::Whole(past, row::list_of(id), false, Number::Empty),
            None => State::Stopped(Refusal::ROW_FORM, place),
        };
    }
    if b < b'0' {
        return State::Stopped(Refusal::ROW_FORM, place);
    }
    if b'9' < b {
        return State::Stopped(Refusal::ROW_FORM, place);
    }
    id_digit(past, n, b)
}

fn whole_digit(past: Past, l: Listed, negative: bool, n: Number, b: u8) -> State
    requires { (digit_zero ≤ b) × (b ≤ digit_nine) }
    ensures { (at : ℕ) → Free at (State.Whole past l negative n) b result }
{
    match number::number_step(n, b) {
        Some(m) => State::Whole(past, l, negative, m),
        None => State::Stopped(Refusal::ROW_FORM, past.place),
    }
}

fn whole_end(past: Past, l: Listed, negative: bool, n: Number) -> State
    ensures { (at : ℕ) → Free at (State.Whole past l negative n) point result }
{
    match number::number_end(n) {
        Some(whole) => State::Fraction(
            past,
            l,
            Tail {
                negative,
                whole,
                digits: 0,
                value: 0,
            },
        ),
        None => State::Stopped(Refusal::ROW_FORM, past.place),
    }
}

// A minus stands first or nowhere.
fn negate(past: Past, l: Listed, negative: bool, n: Number) -> State
    ensures { (at : ℕ) → Free at (State.Whole past l negative n) minus result }
{
    if negative {
        return State::Stopped(Refusal::ROW_FORM, past.place);
    }
    match n {
        Number::Empty => State::Whole(past, l, true, Number::Empty),
        Number::Zero => State::Stopped(Refusal::ROW_FORM, past.place),
        Number::Digits(_) => State::Stopped(Refusal::ROW_FORM, past.place),
    }
}

fn whole_step(past: Past, l: Listed, negative: bool, n: Number, b: u8) -> State
    ensures { (at : ℕ) → Free at (State.Whole past l negative n) b result }
{
    if b == b'.' {
        return whole_end(past, l, negative, n);
    }
    if b == b'-' {
        return negate(past, l, negative, n);
    }
    if b < b'0' {
        return State::Stopped(Refusal::ROW_FORM, past.place);
    }
    if b'9' < b {
        return State::Stopped(Refusal::ROW_FORM, past.place);
    }
    whole_digit(past, l, negative, n, b)
}

fn close_row(past: Past, l: Listed, at: u32, profiles: &mut [u32], room: usize) -> State
    requires { Ending past l profiles.old room × (at < most_text) }
    ensures { Ends at past l profiles.old room result profiles.new }
{
    let fault = row::row_fault(past, l, profiles, room);
    if fault == 0 {
        let rise = row::climb(past, l.id);
        let made = Profile::new(l.id, past.samples, l.count);
        row::enter_made(profiles, past.profiles, made);
        let next = Past {
            place: at + 1,
            profiles: past.profiles + 1,
            samples: past.samples + l.count,
            rising: rise.rising,
            last: rise.last,
        };
        return State::Id(next, Number::Empty);
    }
    State::Stopped(fault, past.place)
}

// A byte below the digits after a sample's point: a space or LF closes the sample.
fn fraction_end(
    past: Past,
    l: Listed,
    t: Tail,
    at: u32,
    b: u8,
    profiles: &mut [u32],
    samples: &mut [i32],
) -> State
    requires { Live at (State.Fraction past l t) profiles.old samples.old × ((at < most_text) × (b < digit_zero)) }
    ensures { Steps at (State.Fraction past l t) profiles.old samples.old b result profiles.new samples.new }
{
    if t.digits == 0 {
        return State::Stopped(Refusal::ROW_FORM, past.place);
    }
    if b == b' ' {
        let closed = sample::close_sample(past, l, t, samples);
        return State::Whole(past, closed, false, Number::Empty);
    }
    if b == b'\n' {
        let closed = sample::close_sample(past, l, t, samples);
        let room = samples.len();
        return close_row(past, closed, at, profiles, room);
    }
    State::Stopped(Refusal::ROW_FORM, past.place)
}

fn fraction_digit(past: Past, l: Listed, t: Tail, b: u8) -> State
    requires { (digit_zero ≤ b) × (b ≤ digit_nine) }
    ensures { (at : ℕ) → Free at (State.Fraction past l t) b result }
{
    if Tail::MOST_DIGITS <= t.digits {
        return State::Stopped(Refusal::ROW_FORM, past.place);
    }
    State::Fraction(
        past,
        l,
        Tail {
            negative: t.negative,
            whole: t.whole,
            digits: t.digits + 1,
            value: number::push(t.value, b),
        },
    )
}

fn fraction_step(
    past: Past,
    l: Listed,
    t: Tail,
    at: u32,
    b: u8,
    profiles: &mut [u32],
    samples: &mut [i32],
) -> State
    requires { Live at (State.Fraction past l t) profiles.old samples.old × (at < most_text) }
    ensures { Steps at (State.Fraction past l t) profiles.old samples.old b result profiles.new samples.new }
{
    if b < b'0' {
        return fraction_end(past, l, t, at, b, profiles, samples);
    }
    if b'9' < b {
        return State::Stopped(Refusal::ROW_FORM, past.place);
    }
    fraction_digit(past, l, t, b)
}

pub fn step(state: State, at: u32, b: u8, profiles: &mut [u32], samples: &mut [i32]) -> State
    requires { Live at state profiles.old samples.old × (at < most_text) }
    ensures { Steps at state profiles.old samples.old b result profiles.new samples.new }
{
    match state {
        State::Id(past, n) => id_step(past, n, b),
        State::Whole(past, l, negative, n) => whole_step(past, l, negative, n, b),
        State::Fraction(past, l, t) => fraction_step(past, l, t, at, b, profiles, samples),
        // Made anew (speed): where the state is handed back whole it goes through memory at each byte.
        State::Stopped(number, place) => State::Stopped(number, place),
    }
}
