// Tables, reports and lists as bytes: document 01, "Records" and "Refusal numbers", as definitions in `specs/`.
#![tactic(auto)]
