// Document 01 for one core, as definitions in `specs/` and what is proved of them in `proofs/`: no code.
#![tactic(auto)]
