// The first pass: a row after the other, its nodes put among the nodes.
ghost use Rattle.duties.specs.Steps.{PutsBoth, Good, Begins, Passes};

use crate::lines::LINE_FEED;
use crate::{lines, places, steps};
use duties_row::faults;
use rules::answers::Refusal;
use rules::sizes::Column;
use text_read::pieces;

// How many rows and nodes there are.
#[derive(Clone, Copy)]
pub struct Pass {
    pub rows: usize,
    pub nodes: usize,
}

// The number of a row's fault, and the row's place.
#[derive(Clone, Copy)]
pub struct Fault {
    pub number: u8,
    pub place: usize,
}

// Both names of a row, its start first: how many nodes there are then.
fn put_both(text: &[u8], table: &mut [u32], n: usize, line: &[u8], place: usize) -> usize
    requires { Good text.now table.old n place line.now }
    ensures { PutsBoth text.now table.old n place line.now result table.new }
{
    let m = places::put_field(text, table, n, line, Column::FROM, place);
    places::put_field(text, table, m, line, Column::TO, place)
}

// The rows from a place on.
pub fn read_rows(text: &[u8], table: &mut [u32], room: usize, from: usize) -> Result<Pass, Fault>
    requires { Begins room text.now table.old from }
    ensures { Passes room text.now from table.old result table.new }
{
    let mut place = from;
    let mut rows = 0;
    let mut n = 0;
    // Kept (no plainer): a turn goes on behind the line that it has read, which no range does.
    while place < text.len() {
        let end = pieces::find(text, LINE_FEED, place);
        if text.len() <= end {
            let number = Refusal::ROW_FORM;
            return Err(Fault { number, place });
        }
        let line = lines::less_return(&text[place..end]);
        let number = steps::row_fault(text, table, n, rows, room, line);
        if number != faults::NO_FAULT {
            return Err(Fault { number, place });
        }
        n = put_both(text, table, n, line, place);
        rows += 1;
        place = end + 1;
    }
    Ok(Pass { rows, nodes: n })
}
