// The second pass: each row beside the row before it, up to the first that breaks a rule.
ghost use Rattle.duties.specs.Turns.{Starts, Judges};

use crate::lines::LINE_FEED;
use crate::turns;
use rules::sizes::Rule;
use text_read::pieces;

// The first row that breaks a rule, its lowest such rule, and its place.
#[derive(Clone, Copy)]
pub struct Breach {
    pub row: usize,
    pub rule: u8,
    pub place: usize,
}

// The rows from a place on: their duties are put into a table of their own, and each balance begins with 0.
pub fn judge_rows(
    text: &[u8],
    nodes: &[u32],
    n: usize,
    duties: &mut [u32],
    balance: &mut [i32],
    from: usize,
) -> Result<(), Breach>
    requires { Starts text.now nodes.now n duties.old balance.old from }
    ensures { Judges text.now nodes.now n balance.old from result balance.new }
{
    let mut place = from;
    let mut last = text.len();
    let mut row = 0;
    let mut count = 0;
    // Kept (no plainer): a turn goes on behind the line that it has read, which no range does.
    while place < text.len() {
        let ruled = turns::row_rule(text, duties, count, last, place);
        if ruled.rule != Rule::NONE {
            let rule = ruled.rule;
            return Err(Breach { row, rule, place });
        }
        turns::turn(text, nodes, n, last, place, balance);
        count = ruled.duties;
        last = place;
        place = pieces::find(text, LINE_FEED, place) + 1;
        row += 1;
    }
    turns::end_last(text, nodes, n, last, balance);
    Ok(())
}
