// A whole number byte by byte. Past every limit all numbers are one: the value stays at CAP.
ghost use Rattle.std.specs.Prelude.{◌≡◌, ◌+◌, ◌*◌, ◌-◌, ◌≤◌, min};
ghost use Rattle.rules.specs.Bytes.{digit_zero, digit_nine};
ghost use Rattle.profiles_row.specs.Near.{cap, Pushes, Ends};

use rules::sizes::Id;

#[derive(Clone, Copy)]
pub enum Number {
    Empty,
    Zero,
    Digits(u32),
}

impl Number {
    pub const CAP: u32 = Id::MOST + 1;
}

// The value with one digit more.
pub fn push(value: u32, b: u8) -> u32
    requires { (digit_zero ≤ b) × (b ≤ digit_nine) }
    ensures { result ≡ min (value * 10 + (b - digit_zero)) cap }
{
    let wide = u64::from(value) * 10 + u64::from(b - b'0');
    wide.min(u64::from(Number::CAP)) as u32
}

// With one digit more; none where its leading zero is needless.
pub fn number_step(n: Number, b: u8) -> Option<Number>
    requires { (digit_zero ≤ b) × (b ≤ digit_nine) }
    ensures { Pushes n b result }
{
    match n {
        Number::Empty => {
            if b == b'0' {
                Some(Number::Zero)
            } else {
                Some(Number::Digits(u32::from(b - b'0')))
            }
        }
        Number::Zero => None,
        Number::Digits(value) => Some(Number::Digits(push(value, b))),
    }
}

// What it says, where it has a digit.
pub fn number_end(n: Number) -> Option<u32>
    ensures { Ends n result }
{
    match n {
        Number::Empty => None,
        Number::Zero => Some(0),
        Number::Digits(value) => Some(value),
    }
}
