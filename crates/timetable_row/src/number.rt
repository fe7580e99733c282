// The open number of a row: its digits are taken in one loop, with the value in a register.
// A number past 4,294,967,295 is out of range wherever it stands, so all of those are one: nothing wraps.
ghost use Rattle.std.specs.Prelude.{◌≡◌, ◌+◌, ◌*◌, drop};
ghost use Rattle.timetable_row.specs.Digits.{held, digits_from, first_from, taken_from, is_empty, value_of};

#[derive(Clone, Copy)]
pub enum Number {
    Empty,
    Zero,
    Digits(u32),
}

// A number so far, and the place after its digits.
#[derive(Clone, Copy)]
pub struct Taken {
    pub number: Number,
    pub next: usize,
}

// A digit more.
fn push(value: u32, digit: u8) -> u32
    ensures { result ≡ held (value * 10 + digit) }
{
    let wide = u64::from(value) * 10 + u64::from(digit);
    wide.min(u64::from(u32::MAX)) as u32
}

// The digits from `from` on, after a number of that value that does not begin with 0.
fn digits(part: &[u8], from: usize, value: u32) -> Taken
    ensures { result ≡ digits_from value from (drop from part.now) }
{
    let mut v = value;
    for i in from..part.len() {
        let b = part[i];
        if !b.is_ascii_digit() {
            return Taken {
                number: Number::Digits(v),
                next: i,
            };
        }
        v = push(v, b - b'0');
    }
    Taken {
        number: Number::Digits(v),
        next: part.len().max(from),
    }
}

// The first digit: 0 stands alone.
fn first(part: &[u8], from: usize) -> Taken
    ensures { result ≡ first_from from (drop from part.now) }
{
    match part.get(from).copied() {
        Some(b'0') => Taken {
            number: Number::Zero,
            next: from + 1,
        },
        Some(b) if b.is_ascii_digit() => digits(part, from + 1, u32::from(b - b'0')),
        _ => Taken {
            number: Number::Empty,
            next: from,
        },
    }
}

// The digits from `from` on that the number takes: no other byte, and none after a lone zero.
pub fn take(part: &[u8], from: usize, number: Number) -> Taken
    ensures { result ≡ taken_from number from (drop from part.now) }
{
    match number {
        Number::Empty => first(part, from),
        Number::Zero => Taken {
            number: Number::Zero,
            next: from,
        },
        Number::Digits(v) => digits(part, from, v),
    }
}

pub fn is_empty(number: Number) -> bool
    ensures { result ≡ is_empty number }
{
    matches!(number, Number::Empty)
}

pub fn value(number: Number) -> u32
    ensures { result ≡ value_of number }
{
    match number {
        Number::Empty | Number::Zero => 0,
        Number::Digits(v) => v,
    }
}
