// The theorems over the definitions of `rules`: the demands, the laws of verdict, merges, curves and energies. They stand in ../proofs, what they state in ../specs.
// Who proves a function cites them; nothing here runs.
#![tactic(auto)]
