// After a refusal a lent table or text holds only a number that no field can have (document 01, "The tables"): one function for each type of element, over the whole slice. `tables_lent` calls them
// for the entries, and the curves begin with zeros by them.
#![tactic(auto)]

ghost use Rattle.std.specs.Prelude.{◌≡◌};
ghost use Rattle.rules.specs.Limits.{unsigned_fill, signed_fill, byte_fill};
ghost use Rattle.rules.specs.Entries.{filled};

use rules::sizes::Fill;

pub fn unsigned(t: &mut [u32])
    ensures { t.new ≡ filled unsigned_fill t.old }
{
    t.fill(Fill::UNSIGNED);
}

pub fn signed(t: &mut [i32])
    ensures { t.new ≡ filled signed_fill t.old }
{
    t.fill(Fill::SIGNED);
}

pub fn bytes(t: &mut [u8])
    ensures { t.new ≡ filled byte_fill t.old }
{
    t.fill(Fill::BYTE);
}
