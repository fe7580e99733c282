// Rolling stock duties, whole: the header, both passes, and what is left in the two tables.
ghost use Rattle.std.specs.Prelude.{◌≡◌, ◌*◌, ◌/◌, min, length};
ghost use Rattle.rules.specs.Limits.{most_events, node_width};
ghost use Rattle.rules.specs.Bytes.{line_feed, split_on};
ghost use Rattle.rules.specs.Duties.{duties_names};
ghost use Rattle.rules.specs.Promises.{ChecksDuties};
ghost use Rattle.csv_header.specs.Heading.{end_in};
ghost use Rattle.duties.specs.Entry.{Whole, Judged, Passed, Tells, nodes_after, balance_after};

use crate::{judge, pass};
use csv_marks::Mark;
use duties_nodes::balances;
use rules::answers::{BrokenRule, File, Refusal, Told};
use rules::outcomes::Duties;
use rules::sizes::{Event, Node, Text};

// The duties that are seen: as many as there can be rows.
const DUTIES: usize = Event::MOST * Node::WIDTH;

// It promises its length alone, since the prover does not write its numbers out then.
fn no_duties() -> [u32; DUTIES]
    ensures { most_events * node_width ≡ length result }
{
    [0; DUTIES]
}

// Where the header ends and the first row begins; 0 where the header differs.
fn head_end(text: &[u8]) -> usize
    ensures { result ≡ end_in duties_names (split_on line_feed text.now) }
{
    let Ok(headed) = csv_header::duties_header(text, 0, Mark::Bare) else {
        return 0;
    };
    if headed.head < Event::HEADER_LENGTH {
        return 0;
    }
    headed.next
}

// The nodes that both tables take.
fn room_of(nodes: usize, balance: usize) -> usize
    ensures { result ≡ min (nodes / node_width) balance }
{
    (nodes / Node::WIDTH).min(balance)
}

// The rows that were read, judged.
fn judge_all(text: &[u8], nodes: &[u32], n: usize, balance: &mut [i32], from: usize) -> Told
    requires { Whole text.now nodes.now n balance.old from }
    ensures { Judged text.now nodes.now n balance.old from result balance.new }
{
    balances::clear(balance, n);
    let mut duties = no_duties();
    match judge::judge_rows(text, nodes, n, &mut duties, balance, from) {
        Ok(()) => Told::Accepted(n as u32),
        Err(breach) => {
            let row = breach.row as u32;
            let place = breach.place as u32;
            Told::Broken(BrokenRule::new(row, breach.rule, place))
        }
    }
}

// The rows from a place on, read and judged.
fn read_all(text: &[u8], nodes: &mut [u32], balance: &mut [i32], room: usize, from: usize) -> Told
    requires { Passed room text.now nodes.old balance.old from }
    ensures { Tells text.now nodes.old balance.old result nodes.new balance.new }
{
    match pass::read_rows(text, nodes, room, from) {
        Ok(read) => judge_all(text, nodes, read.nodes, balance, from),
        Err(fault) => {
            let place = fault.place as u32;
            Told::Refused(Refusal::new(fault.number, File::DUTIES, place))
        }
    }
}

// The answer, and both tables where it is accepted.
fn tell(text: &[u8], nodes: &mut [u32], balance: &mut [i32]) -> Told
    ensures { Tells text.now nodes.old balance.old result nodes.new balance.new }
{
    if Text::MOST < text.len() {
        return Told::Refused(Refusal::new(Refusal::TOO_LONG, File::DUTIES, 0));
    }
    let from = head_end(text);
    if from == 0 {
        return Told::Refused(Refusal::new(Refusal::HEADER, File::DUTIES, 0));
    }
    let room = room_of(nodes.len(), balance.len());
    read_all(text, nodes, balance, room, from)
}

// All but acceptance fills the nodes.
fn empty_nodes(answer: Told, nodes: &mut [u32])
    ensures { nodes.new ≡ nodes_after answer nodes.old }
{
    match answer {
        Told::Accepted(_) => {}
        Told::Broken(_) | Told::Refused(_) => tables_fill::unsigned(nodes),
    }
}

// So it does the balance.
fn empty_balance(answer: Told, balance: &mut [i32])
    ensures { balance.new ≡ balance_after answer balance.old }
{
    match answer {
        Told::Accepted(_) => {}
        Told::Broken(_) | Told::Refused(_) => tables_fill::signed(balance),
    }
}

// Two numbers a node are left in `nodes`, its name's first byte in the text and its length, and one in `balance`: duties ending less duties starting.
pub fn check_duties(text: &[u8], nodes: &mut [u32], balance: &mut [i32]) -> Duties
    ensures { ChecksDuties text.now nodes.old balance.old result nodes.new balance.new }
{
    let answer = tell(text, nodes, balance);
    empty_nodes(answer, nodes);
    empty_balance(answer, balance);
    Duties { answer }
}
