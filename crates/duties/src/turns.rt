// A row beside the row before it: the lowest rule that it breaks, and the duties that end and start with it.
ghost use Rattle.std.specs.Prelude.{◌≡◌, pos};
ghost use Rattle.rules.specs.Duties.{duty_column};
ghost use Rattle.duties_nodes.specs.Nodes.{view};
ghost use Rattle.duties_nodes.specs.Balances.{BumpRoom};
ghost use Rattle.duties.specs.Steps.{Ready};
ghost use Rattle.duties.specs.Turns.{line_at, Rules, ended_in, turned_in, TurnRoom};

use crate::{lines, places};
use duties_fields::fields;
use duties_nodes::balances;
use duties_row::kept;
use rules::sizes::Column;

// What a duty's end and its start change.
const END: i32 = 1;

const START: i32 = -1;

// How many duties there are with the row's, and the lowest rule that it breaks, or 0.
// Kept (law rule_in): the lowest rule is a number there, and 0 is none.
#[derive(Clone, Copy)]
pub struct Ruled {
    pub duties: usize,
    pub rule: u8,
}

// The row at a place, beside the one at `last`, after so many duties.
pub fn row_rule(text: &[u8], duties: &mut [u32], count: usize, last: usize, place: usize) -> Ruled
    requires { Ready duties.old count place (line_at text.now place) duty_column }
    ensures { Rules text.now duties.old count last place result duties.new }
{
    let line = lines::line_at(text, place);
    let with = places::put_field(text, duties, count, line, Column::DUTY, place);
    let rule = kept::broken_rule(count < with, lines::line_at(text, last), line);
    Ruled { duties: with, rule }
}

// The duty of a line ends.
fn end_duty(text: &[u8], nodes: &[u32], n: usize, before: &[u8], balance: &mut [i32])
    requires { BumpRoom nodes.now n balance.old (pos 1) }
    ensures { balance.new ≡ ended_in before.now (view text.now nodes.now n) balance.old }
{
    if before.len() == 0 {
        return;
    }
    let to = fields::content_at(before, Column::TO);
    balances::bump(text, nodes, n, to, balance, END);
}

// The duty of the last row ends.
pub fn end_last(text: &[u8], nodes: &[u32], n: usize, last: usize, balance: &mut [i32])
    requires { BumpRoom nodes.now n balance.old (pos 1) }
    ensures { balance.new ≡ ended_in (line_at text.now last) (view text.now nodes.now n) balance.old }
{
    end_duty(text, nodes, n, lines::line_at(text, last), balance);
}

// Where the row at a place is not of the duty of the row at `last`, that one ends and its own starts.
pub fn turn(text: &[u8], nodes: &[u32], n: usize, last: usize, place: usize, balance: &mut [i32])
    requires { TurnRoom nodes.now n balance.old 1 }
    ensures { balance.new ≡ turned_in (line_at text.now last) (line_at text.now place) (view text.now nodes.now n) balance.old }
{
    let line = lines::line_at(text, place);
    let before = lines::line_at(text, last);
    if kept::follows(before, line) {
        return;
    }
    end_duty(text, nodes, n, before, balance);
    let from = fields::content_at(line, Column::FROM);
    balances::bump(text, nodes, n, from, balance, START);
}
