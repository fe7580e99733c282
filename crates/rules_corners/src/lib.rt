// The corners of the definitions of `rules`, computed: tables of examples in ../specs, each with one statement. Nothing calls it: a definition that changes at a corner is refused here.
#![tactic(auto)]
