// Quotes about fields and a CR at a line's end: what a byte does where it stands, in a header or in a row.
#![tactic(auto)]

ghost use Rattle.std.specs.Prelude.{◌≡◌};
ghost use Rattle.csv_marks.specs.Turns.{takes, may_end, plain_under, on_quote, on_return, on_end, on_comma, on_other, turned, moved_under};

// No quote is open; within a pair of quotes; behind the second of them; behind a CR.
#[derive(Clone, Copy)]
pub enum Mark {
    Bare,
    Within,
    Behind,
    Returned,
}

// A byte moves the mark, goes to the contents and leaves that mark, or breaks the line.
#[derive(Clone, Copy)]
pub enum Act {
    To(Mark),
    Content(Mark),
    Broken,
}

// The mark after a byte, and how many bytes it took: one that goes to the contents is left for them.
#[derive(Clone, Copy)]
pub struct Move {
    pub mark: Mark,
    pub step: usize,
}

// Whether contents may follow at all.
pub fn contents(mark: Mark) -> bool
    ensures { result ≡ takes mark }
{
    matches!(mark, Mark::Bare | Mark::Within)
}

// Whether a line may end there: no quote is open.
pub fn may_end(mark: Mark) -> bool
    ensures { result ≡ may_end mark }
{
    !matches!(mark, Mark::Within)
}

// Whether a byte goes to the contents and leaves the mark, wherever it stands in its field. Where no quote is open, one test does for most bytes: they stand above the quote.
pub fn plain(mark: Mark, b: u8) -> bool
    ensures { result ≡ plain_under mark b }
{
    match mark {
        Mark::Bare => b'"' < b || !matches!(b, b'"' | b'\r'),
        Mark::Within => !matches!(b, b'"' | b'\r' | b',' | b'\n'),
        Mark::Behind | Mark::Returned => false,
    }
}

fn on_quote(mark: Mark, begins: bool) -> Act
    ensures { result ≡ on_quote mark begins }
{
    match mark {
        Mark::Bare if begins => Act::To(Mark::Within),
        Mark::Within => Act::To(Mark::Behind),
        _ => Act::Broken,
    }
}

fn on_return(mark: Mark) -> Act
    ensures { result ≡ on_return mark }
{
    match mark {
        Mark::Bare | Mark::Behind => Act::To(Mark::Returned),
        Mark::Within | Mark::Returned => Act::Broken,
    }
}

fn on_end(mark: Mark) -> Act
    ensures { result ≡ on_end mark }
{
    match mark {
        Mark::Bare | Mark::Behind | Mark::Returned => Act::Content(Mark::Bare),
        Mark::Within => Act::Broken,
    }
}

fn on_comma(mark: Mark) -> Act
    ensures { result ≡ on_comma mark }
{
    match mark {
        Mark::Bare | Mark::Behind => Act::Content(Mark::Bare),
        Mark::Within | Mark::Returned => Act::Broken,
    }
}

fn on_other(mark: Mark) -> Act
    ensures { result ≡ on_other mark }
{
    match mark {
        Mark::Bare | Mark::Within => Act::Content(mark),
        Mark::Behind | Mark::Returned => Act::Broken,
    }
}

// A byte under a mark, where a field begins or not.
pub fn turn(mark: Mark, b: u8, begins: bool) -> Act
    ensures { result ≡ turned mark b begins }
{
    match b {
        b'"' => on_quote(mark, begins),
        b'\r' => on_return(mark),
        b'\n' => on_end(mark),
        b',' => on_comma(mark),
        _ => on_other(mark),
    }
}

// What `turn` says, for a reader whose contents take the byte themselves: None where the line is broken.
pub fn moved(mark: Mark, b: u8, begins: bool) -> Option<Move>
    ensures { result ≡ moved_under mark b begins }
{
    match turn(mark, b, begins) {
        Act::To(mark) => Some(Move { mark, step: 1 }),
        Act::Content(mark) => Some(Move { mark, step: 0 }),
        Act::Broken => None,
    }
}
