// A row's names, put among the nodes by their places in the text.
ghost use Rattle.std.specs.Prelude.{◌≡◌, ◌+◌, length};
ghost use Rattle.rules.specs.Duties.{place_in};
ghost use Rattle.duties_fields.specs.Fields.{content_in};
ghost use Rattle.duties_nodes.specs.Nodes.{Puts};
ghost use Rattle.duties.specs.Steps.{Near, Ready};

use duties_fields::fields;
use duties_nodes;

// Where the content of field k starts in the text.
fn place_in(line: &[u8], k: usize, place: usize) -> u32
    requires { Near place line.now k }
    ensures { result ≡ place + place_in k line.now }
{
    let at = fields::place_at(line, k);
    (place + at) as u32
}

// How long it is.
fn long_in(line: &[u8], k: usize, place: usize) -> u32
    requires { Near place line.now k }
    ensures { result ≡ length (content_in k line.now) }
{
    fields::content_at(line, k).len() as u32
}

// The name in field k is put behind the n others, where it is new.
pub fn put_field(
    text: &[u8],
    table: &mut [u32],
    n: usize,
    line: &[u8],
    k: usize,
    place: usize,
) -> usize
    requires { Ready table.old n place line.now k }
    ensures { Puts text.now table.old n (content_in k line.now) (place + place_in k line.now) result table.new }
{
    let at = place_in(line, k, place);
    let long = long_in(line, k, place);
    let name = fields::content_at(line, k);
    duties_nodes::put_node(text, table, n, name, at, long)
}
