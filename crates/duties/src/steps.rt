// A row after the rows before it: its lowest fault, by the nodes so far.
ghost use Rattle.std.specs.Prelude.{◌≡◌, ◌*◌, ◌≤◌, length};
ghost use Rattle.duties_fields.specs.Fields.{content_in};
ghost use Rattle.duties_nodes.specs.Nodes.{view, with_both};
ghost use Rattle.duties.specs.Steps.{row_fault};
ghost use Rattle.rules.specs.Duties.{from_column, to_column};
ghost use Rattle.rules.specs.Limits.{node_width};

use duties_fields::fields;
use duties_nodes;
use duties_row::faults;
use rules::sizes::Column;

// How many nodes there are with the row's own.
fn nodes_with(text: &[u8], table: &[u32], n: usize, line: &[u8]) -> usize
    requires { n * node_width ≤ length table.now }
    ensures { result ≡ length (with_both (view text.now table.now n) (content_in from_column line.now) (content_in to_column line.now)) }
{
    let from = fields::content_at(line, Column::FROM);
    let to = fields::content_at(line, Column::TO);
    duties_nodes::with_both(text, table, n, from, to)
}

// The line's fault, or that of the counts; 0 where there is none.
#[tactic(auto, using(crate::proofs::Viewing::step_counts))]
pub fn row_fault(text: &[u8], table: &[u32], n: usize, rows: usize, room: usize, line: &[u8]) -> u8
    requires { n * node_width ≤ length table.now }
    ensures { result ≡ row_fault (view text.now table.now n) rows room line.now }
{
    let fault = faults::line_fault(line);
    if fault == faults::NO_FAULT {
        let nodes = nodes_with(text, table, n, line);
        return faults::count_fault(line, rows, nodes, room);
    }
    fault
}
