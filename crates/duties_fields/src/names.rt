// Names, and parts of a text.
ghost use Rattle.std.specs.Prelude.{◌≡◌};
ghost use Rattle.rules.specs.Lists.{same_list};
ghost use Rattle.rules.specs.Duties.{in_name, is_name};
ghost use Rattle.duties_fields.specs.Fields.{part_of};

use crate::{COMMA, QUOTE};
use rules::sizes::Name;
use text_read::words;

pub fn in_name(b: u8) -> bool
    ensures { result ≡ in_name b }
{
    Name::FIRST_BYTE <= b && b <= Name::LAST_BYTE && b != QUOTE && b != COMMA
}

// 1 to 32 bytes, each of which may stand in a name.
#[tactic(auto, using(crate::proofs::Naming::name_long))]
pub fn is_name(s: &[u8]) -> bool
    ensures { result ≡ is_name s.now }
{
    if s.len() < Name::LEAST {
        return false;
    }
    if Name::MOST < s.len() {
        return false;
    }
    for b in s {
        if !in_name(*b) {
            return false;
        }
    }
    true
}

// So many bytes from a place on, or as many as there are.
pub fn part<'a>(text: &'a [u8], at: usize, n: usize) -> &'a [u8]
    ensures { result.now ≡ part_of text.now at n }
{
    if text.len() <= at {
        return &[];
    }
    if text.len() - at <= n {
        return &text[at..];
    }
    &text[at..at + n]
}

// Whether a text is a name. Names that begin alike are told apart by their lengths and last bytes, before all bytes are compared.
pub fn same_name(s: &[u8], name: &[u8]) -> bool
    ensures { result ≡ same_list name.now s.now }
{
    if s.len() != name.len() {
        return false;
    }
    if s.len() == 0 {
        return true;
    }
    let last = s.len() - 1;
    if s[last] != name[last] {
        return false;
    }
    words::spells(s, name)
}

pub fn same_part(text: &[u8], at: usize, n: usize, name: &[u8]) -> bool
    ensures { result ≡ same_list name.now (part_of text.now at n) }
{
    same_name(part(text, at, n), name)
}
