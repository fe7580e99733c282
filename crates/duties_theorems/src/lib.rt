// What holds of the answers for rolling stock duties: of the definitions, and of any outcomes that keep the promise of `check_duties`. It has no code.
#![tactic(auto)]
