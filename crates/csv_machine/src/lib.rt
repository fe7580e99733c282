// A CSV text byte by byte, for texts that arrive whole or in parts: the definitions in ../specs, the laws in ../proofs. The readers of timetable.csv, profiles.csv and solutions cite it;
// the code is each reader's own, since it has the row in its own fields.
#![tactic(auto)]
