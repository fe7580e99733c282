// The law book of Wagontulip: the types of document 01 with their limits, and in ../specs what they mean and what the entries promise. Every crate is held to it.
#![tactic(auto)]

pub mod sizes; // the types with their limits, widths and constructors
pub mod kinds; // the five kinds of constraint, in one table
pub mod answers; // refusals, violations, the answer
pub mod tokens; // the words of the automaton that reads constraints.json
pub mod stated; // what a caller states, and its tests
pub mod figures; // the energies and the record of four doubles
pub mod outcomes; // what the entries give back
pub mod limits; // the tie between the constants and the specs
