// The text of profiles.csv, whole or in parts.
ghost use Rattle.std.specs.Prelude.{◌≡◌, false, ◌+◌, ◌≤◌, ◌<◌, length, get_or};
ghost use Rattle.rules.specs.Limits.{most_text};
ghost use Rattle.rules.specs.Answers.{refusal, profiles_file};
ghost use Rattle.csv_marks.specs.Turns.{plain_under};
ghost use Rattle.profiles_state.specs.Holds.{Live};
ghost use Rattle.profiles.specs.Feeds.{Feeds, Alive, Lined, begun_at, count_in, ManyRead, Skips, Quickens, CrossedTo};
ghost use Rattle.profiles.specs.Reads.{Starts, Finishes, Reads};

use csv_marks::Mark;
use profiles_row::number::Number;
use profiles_row::row::{Listed, Past};
use profiles_row::{row, sample};
use profiles_state::state::State;
use profiles_state::{marked, state};
use rules::answers::{File, Refusal};
use rules::sizes::{Profile, Text};

// Samples that were read, and the place behind the last one's space.
#[derive(Clone, Copy)]
pub struct Many {
    pub l: Listed,
    pub next: usize,
}

// The samples of a list from a place on, as many as stand there whole.
#[tactic(auto, using(crate::proofs::Feed::feeding))]
fn samples_run(past: Past, l: Listed, part: &[u8], from: usize, samples: &mut [i32]) -> Many
    requires { (from ≤ length part.now) × (l.count + length part.now ≤ most_text + from) }
    ensures { ManyRead part.now past l from samples.old result samples.new }
{
    let mut cur = l;
    let mut i = from;
    // Kept (no plainer): a turn goes on behind the sample that it has read, which no range does.
    while let Some(read) = profiles_sample::sample_at(part, i) {
        cur = sample::close_sample(past, cur, read.tail, samples);
        i = read.next + 1;
    }
    Many { l: cur, next: i }
}

// A state, and the place of the byte that it waits for.
#[derive(Clone, Copy)]
pub struct Moved {
    pub state: State,
    pub next: usize,
}

// After a fault nothing more is read.
fn skip(state: State, part: &[u8], from: usize) -> Moved
    requires { from ≤ length part.now }
    ensures { Skips part.now from state result }
{
    let State::Stopped(number, place) = state else {
        return Moved { state, next: from };
    };
    Moved {
        state: State::Stopped(number, place),
        next: part.len(),
    }
}

// At a sample's beginning, whole samples are read at once.
#[tactic(auto, using(crate::proofs::Feed::feeding))]
fn quicken(state: State, mark: Mark, part: &[u8], from: usize, samples: &mut [i32]) -> Moved
    requires { (from ≤ length part.now) × (count_in state + length part.now ≤ most_text + from) }
    ensures { Quickens part.now from mark state samples.old result samples.new }
{
    let State::Whole(past, l, negative, n) = state else {
        return skip(state, part, from);
    };
    let Number::Empty = n else {
        return Moved { state, next: from };
    };
    if negative {
        return Moved { state, next: from };
    }
    if csv_marks::contents(mark) {
        let many = samples_run(past, l, part, from, samples);
        let read = many.l;
        return Moved {
            state: State::Whole(past, read, false, Number::Empty),
            next: many.next,
        };
    }
    Moved { state, next: from }
}

// How far a text is read: the place of the next byte, how many bytes are the header's, the mark, and where the byte falls behind the header. Before its end the
// state is the header's fault, which is what a text that ends there has.
#[derive(Clone, Copy)]
pub struct Reader {
    pub next: u32,
    pub head: usize,
    pub mark: Mark,
    pub state: State,
}

// A state under a mark, and the place of the byte that it waits for.
#[derive(Clone, Copy)]
pub struct Crossed {
    pub state: State,
    pub mark: Mark,
    pub next: usize,
}

// A byte that is not plain goes to the marks.
fn cross_byte(state: State, mark: Mark, part: &[u8], from: usize) -> Crossed
    requires { (from < length part.now) × (plain_under mark (get_or part.now from 0) ≡ false) }
    ensures { CrossedTo part.now from mark state result }
{
    let passed = marked::pass(state, mark, part[from]);
    let after = passed.mark;
    let one = passed.state;
    let moved = skip(one, part, from + passed.step);
    let state = moved.state;
    Crossed {
        state,
        mark: after,
        next: moved.next,
    }
}

// Such a byte, or at a row's beginning the whole id in quotes that it opens, and the quote that opens the list.
fn cross(state: State, mark: Mark, part: &[u8], from: usize) -> Crossed
    requires { (from < length part.now) × (plain_under mark (get_or part.now from 0) ≡ false) }
    ensures { CrossedTo part.now from mark state result }
{
    let State::Id(past, n) = state else {
        return cross_byte(state, mark, part, from);
    };
    let Number::Empty = n else {
        return cross_byte(state, mark, part, from);
    };
    let Mark::Bare = mark else {
        return cross_byte(state, mark, part, from);
    };
    let Some(head) = profiles_sample::head_at(part, from) else {
        return cross_byte(state, mark, part, from);
    };
    let l = row::list_of(head.id);
    Crossed {
        state: State::Whole(past, l, false, Number::Empty),
        mark: Mark::Within,
        next: head.next,
    }
}

// The rows of a part, which follows `next` bytes, from a place on: a plain byte goes to the contents, with the whole samples behind it, and any other one to the marks.
fn run_rows(
    before: State,
    first: Mark,
    next: u32,
    part: &[u8],
    from: usize,
    profiles: &mut [u32],
    samples: &mut [i32],
) -> Reader
    requires { Live (next + from) before profiles.old samples.old × ((next + length part.now ≤ most_text) × (from ≤ length part.now)) }
    ensures { Lined next before first profiles.old samples.old part.now from result profiles.new samples.new }
{
    let head = Profile::HEADER_LENGTH;
    let mut state = before;
    let mut mark = first;
    let mut i = from;
    // Kept (no plainer): a turn goes on by what it has read, which no range does.
    while i < part.len() {
        let b = part[i];
        if csv_marks::plain(mark, b) {
            let one = state::step(state, next + (i as u32), b, profiles, samples);
            let moved = quicken(one, mark, part, i + 1, samples);
            state = moved.state;
            i = moved.next;
        } else {
            let crossed = cross(state, mark, part, i);
            state = crossed.state;
            mark = crossed.mark;
            i = crossed.next;
        }
    }
    Reader {
        next: next + (i as u32),
        head,
        mark,
        state,
    }
}

// Behind the header the first row opens.
#[tactic(auto, using(crate::proofs::Feed::feeding))]
fn begun(state: State, head: usize, at: u32) -> State
    ensures { result ≡ begun_at state head at }
{
    if Profile::HEADER_LENGTH <= head {
        return state;
    }
    let past = Past {
        place: at,
        profiles: 0,
        samples: 0,
        rising: 0,
        last: 0,
    };
    State::Id(past, Number::Empty)
}

// A part of the text, of whatever size.
pub fn feed(reader: Reader, part: &[u8], profiles: &mut [u32], samples: &mut [i32]) -> Reader
    requires { Alive reader profiles.old samples.old × (reader.next + length part.now ≤ most_text) }
    ensures { Feeds reader profiles.old samples.old part.now result profiles.new samples.new }
{
    let next = reader.next;
    let mark = reader.mark;
    let state = reader.state;
    let all = next + (part.len() as u32);
    let Ok(headed) = csv_header::profiles_header(part, reader.head, mark) else {
        return Reader {
            next: all,
            head: Profile::HEADER_LENGTH,
            mark,
            state: State::Stopped(Refusal::HEADER, 0),
        };
    };
    if headed.head < Profile::HEADER_LENGTH {
        return Reader {
            next: all,
            head: headed.head,
            mark: headed.mark,
            state,
        };
    }
    let from = headed.next;
    let first = begun(state, reader.head, next + (from as u32));
    run_rows(first, headed.mark, next, part, from, profiles, samples)
}

// How many profiles and samples a text has.
#[derive(Clone, Copy)]
pub struct Rows {
    pub profiles: u32,
    pub samples: u32,
}

#[tactic(auto, using(crate::proofs::Text::texts))]
pub fn start() -> Reader
    ensures { Starts result }
{
    Reader {
        next: 0,
        head: 0,
        mark: Mark::Bare,
        state: State::Stopped(Refusal::HEADER, 0),
    }
}

fn refused(number: u8, place: u32) -> Result<Rows, Refusal>
    ensures { result ≡ Err (refusal number profiles_file place) }
{
    Err(Refusal::new(number, File::PROFILES, place))
}

// The text is over.
pub fn finish(reader: Reader) -> Result<Rows, Refusal>
    ensures { Finishes reader result }
{
    match reader.state {
        State::Id(past, _) => {
            if past.place == reader.next {
                return Ok(Rows {
                    profiles: past.profiles,
                    samples: past.samples,
                });
            }
            refused(Refusal::ROW_FORM, past.place)
        }
        State::Whole(past, _, _, _) => refused(Refusal::ROW_FORM, past.place),
        State::Fraction(past, _, _) => refused(Refusal::ROW_FORM, past.place),
        State::Stopped(number, place) => refused(number, place),
    }
}

// A whole text: its profiles and samples at the front of the lent tables, whose other entries keep their contents.
pub fn read_profiles(
    text: &[u8],
    profiles: &mut [u32],
    samples: &mut [i32],
) -> Result<Rows, Refusal>
    ensures { Reads text.now profiles.old samples.old result profiles.new samples.new }
{
    if Text::MOST < text.len() {
        return refused(Refusal::TOO_LONG, 0);
    }
    let reader = feed(start(), text, profiles, samples);
    finish(reader)
}
