// Tables as comma-separated text: document 02, request 2. `specs/` says what a text is and what is written; there is no code here.
#![tactic(auto)]
