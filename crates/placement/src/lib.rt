// Where the rows of a table go: document 01, "Placement", as definitions in `specs/`, with what an accepted placement promises as laws in `proofs/`.
#![tactic(auto)]
