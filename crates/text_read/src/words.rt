// Names: whether a text is one, and whether it begins with one.
ghost use Rattle.std.specs.Prelude.{◌≡◌};
ghost use Rattle.rules.specs.Lists.{same_list, starts_with};

#[tactic(auto, using(crate::proofs::Names::starts_pairs))]
pub fn starts_with(s: &[u8], name: &[u8]) -> bool
    ensures { result ≡ starts_with name.now s.now }
{
    s.starts_with(name)
}

#[tactic(auto, using(crate::proofs::Names::same_pairs))]
pub fn spells(s: &[u8], name: &[u8]) -> bool
    ensures { result ≡ same_list name.now s.now }
{
    s == name
}
