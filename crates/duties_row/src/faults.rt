// The lowest fault of a row, or 0.
ghost use Rattle.std.specs.Prelude.{◌≡◌};
ghost use Rattle.duties_row.specs.Rowed.{line_fault, count_fault};

use crate::{forms, numbers};
use rules::answers::Refusal;
use rules::sizes::{Event, Node};

// Kept (law or_fault): the lowest fault is a number there, and 0 is none.
pub const NO_FAULT: u8 = 0;

// By its line alone.
pub fn line_fault(line: &[u8]) -> u8
    ensures { result ≡ line_fault line.now }
{
    if !forms::is_row(line) {
        return Refusal::ROW_FORM;
    }
    if numbers::in_range(line) {
        return NO_FAULT;
    }
    Refusal::RANGE
}

// By the rows before it and the nodes with its own.
pub fn count_fault(line: &[u8], rows: usize, nodes: usize, room: usize) -> u8
    ensures { result ≡ count_fault line.now rows nodes room }
{
    if Event::MOST <= rows {
        return Refusal::COUNT;
    }
    if Node::MOST < nodes {
        return Refusal::COUNT;
    }
    if !forms::known_in(line) {
        return Refusal::UNKNOWN;
    }
    if nodes <= room {
        return NO_FAULT;
    }
    Refusal::ROOM
}
