// What constraints.json says, as a value and as a text, and that the automaton of `rules` reads just that. The statements stand in ../specs, the theorems in ../proofs.
// Nothing calls it: it is there for the reader of `rules`.
#![tactic(auto)]
