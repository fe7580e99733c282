// A whole entry of a list, where one stands: three numbers, each with the byte that closes it; and a whole number in quotes. They are the fast ways of `timetable`; what is neither is `None`, and goes byte by byte.
#![tactic(auto)]

ghost use Rattle.std.specs.Prelude.{◌≡◌, cond, ◌+◌, ◌^◌, ◌≤◌, ◌<◌, eqb, length};
ghost use Rattle.timetable_entry.specs.Spots.{number_bytes, cut, Cuts, Spots, Quotes};

// A number, and the place behind the byte that closes it.
#[derive(Clone, Copy)]
pub struct Cut {
    pub number: u32,
    pub next: usize,
}

impl Cut {
    // A number of more digits is passed over: so nothing wraps.
    const MOST_DIGITS: usize = 8;

    // The digits and the byte that closes them, at most.
    const BYTES: usize = Cut::MOST_DIGITS + 1;

    // Such a number in quotes and the comma behind it, at most.
    const QUOTED_BYTES: usize = Cut::BYTES + 2;
}

// A number whose digits end before place i: the byte there closes it, or there is none.
fn closed(b: u8, closes: u8, number: u32, i: usize) -> Option<Cut>
    requires { i + 1 < 2 ^ 64 }
    ensures { result ≡ cond (eqb b closes) (Some (cut number (i + 1))) None }
{
    (b == closes).then_some(Cut {
        number,
        next: i + 1,
    })
}

// The number that begins at a place. All its bytes stand there, so no length is asked; the loop has a constant length, and the compiler unrolls it.
fn number_at(part: &[u8], from: usize, closes: u8) -> Option<Cut>
    requires { from + number_bytes ≤ length part.now }
    ensures { Cuts part.now from closes result }
{
    let first = part[from];
    if !first.is_ascii_digit() {
        return None;
    }
    if first == b'0' {
        return closed(part[from + 1], closes, 0, from + 1);
    }
    let mut number = u32::from(first - b'0');
    for i in from + 1..from + Cut::BYTES {
        let b = part[i];
        if !b.is_ascii_digit() {
            return closed(b, closes, number, i);
        }
        number = number * 10 + u32::from(b - b'0');
    }
    None
}

// The number in quotes that begins at a place, and the place behind its comma.
pub fn quoted_at(part: &[u8], from: usize) -> Option<Cut>
    ensures { Quotes part.now from result }
{
    if part.len() < Cut::QUOTED_BYTES
        || part.len() - Cut::QUOTED_BYTES < from
        || part[from] != b'"'
    {
        return None;
    }
    let quoted = number_at(part, from + 1, b'"')?;
    closed(part[quoted.next], b',', quoted.number, quoted.next)
}

// An entry's three numbers, and the place behind its space.
#[derive(Clone, Copy)]
pub struct Spotted {
    pub departure: u32,
    pub travel: u32,
    pub profile: u32,
    pub next: usize,
}

impl Spotted {
    // The bytes of three numbers, at most.
    const BYTES: usize = 3 * Cut::BYTES;
}

// The entry that begins at a place. The length is asked once, for all three numbers.
pub fn entry_at(part: &[u8], from: usize) -> Option<Spotted>
    ensures { Spots part.now from result }
{
    if part.len() < Spotted::BYTES || part.len() - Spotted::BYTES < from {
        return None;
    }
    let departure = number_at(part, from, b'_')?;
    let travel = number_at(part, departure.next, b'_')?;
    let profile = number_at(part, travel.next, b' ')?;
    Some(Spotted {
        departure: departure.number,
        travel: travel.number,
        profile: profile.number,
        next: profile.next,
    })
}
