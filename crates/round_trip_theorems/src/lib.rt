// No functions: what is written reads back as the same lot, card and held results.
#![tactic(auto)]
