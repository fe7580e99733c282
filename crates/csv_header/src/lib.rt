// A file's header, compared byte by byte, whole or in parts, in quotes or not. It stands apart from its readers because the wrong program is refused here in
// seconds.
#![tactic(auto)]

ghost use Rattle.std.specs.Prelude.{◌≡◌, ◌<◌, length};
ghost use Rattle.rules.specs.Timetable.{timetable_header};
ghost use Rattle.rules.specs.Profiles.{profiles_header};
ghost use Rattle.rules.specs.Duties.{duties_header};
ghost use Rattle.csv_header.specs.Heading.{headed, begins_in, stepped_in, compared_from};

use csv_marks::{Act, Mark};
use rules::sizes::{Event, Leg, Profile};

// How far a part goes on with the header, how many of the header's bytes there are then, and under which mark. An error: the next byte differs.
#[derive(Clone, Copy)]
pub struct Headed {
    pub next: usize,
    pub head: usize,
    pub mark: Mark,
}

// A name begins there.
#[tactic(auto, using(crate::proofs::Heading::heading))]
fn begins(names: &[u8], head: usize) -> bool
    requires { head < length names.now }
    ensures { result ≡ begins_in names.now head }
{
    if head == 0 {
        return true;
    }
    names[head - 1] == b','
}

// How many of the header's bytes there are after one more byte, and under which mark.
#[derive(Clone, Copy)]
pub struct Stepped {
    pub head: usize,
    pub mark: Mark,
}

// A byte as the marks have it; one of the contents is the header's. None where it breaks the line or is another.
#[tactic(auto, using(crate::proofs::Heading::heading))]
fn step(names: &[u8], mark: Mark, head: usize, b: u8) -> Option<Stepped>
    requires { head < length names.now }
    ensures { result ≡ stepped_in names.now mark head b }
{
    match csv_marks::turn(mark, b, begins(names, head)) {
        Act::To(mark) => Some(Stepped { head, mark }),
        Act::Content(mark) if b == names[head] => Some(Stepped {
            head: head + 1,
            mark,
        }),
        _ => None,
    }
}

fn reached(next: usize, so_far: Stepped) -> Headed
    ensures { result ≡ headed next so_far.head so_far.mark }
{
    Headed {
        next,
        head: so_far.head,
        mark: so_far.mark,
    }
}

// A part that follows `head` bytes of the header.
#[tactic(auto, using(crate::proofs::Heading::heading))]
fn compared(names: &[u8], part: &[u8], head: usize, mark: Mark) -> Result<Headed, Headed>
    ensures { result ≡ compared_from names.now mark head 0 part.now }
{
    let mut so_far = Stepped { head, mark };
    for (i, b) in part.iter().enumerate() {
        if names.len() <= so_far.head {
            return Ok(reached(i, so_far));
        }
        let Some(after) = step(names, so_far.mark, so_far.head, *b) else {
            return Err(reached(i, so_far));
        };
        so_far = after;
    }
    Ok(reached(part.len(), so_far))
}

// timetable.csv's.
pub fn header(part: &[u8], head: usize, mark: Mark) -> Result<Headed, Headed>
    ensures { result ≡ compared_from timetable_header mark head 0 part.now }
{
    compared(&Leg::HEADER, part, head, mark)
}

// profiles.csv's.
pub fn profiles_header(part: &[u8], head: usize, mark: Mark) -> Result<Headed, Headed>
    ensures { result ≡ compared_from profiles_header mark head 0 part.now }
{
    compared(&Profile::HEADER, part, head, mark)
}

// The duties'.
pub fn duties_header(part: &[u8], head: usize, mark: Mark) -> Result<Headed, Headed>
    ensures { result ≡ compared_from duties_header mark head 0 part.now }
{
    compared(&Event::HEADER, part, head, mark)
}
