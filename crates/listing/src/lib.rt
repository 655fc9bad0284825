// The listing's bytes: document 01, "The listing", as definitions in `specs/`.
#![tactic(auto)]
