// What the services on table bytes and on a spreadsheet's text promise, as definitions in `specs/`.
#![tactic(auto)]
