// The person's three demands as theorems about any outcomes of the entries that keep their promises. The statements stand in ../specs, the theorems in ../proofs; nothing calls them.
#![tactic(auto)]
