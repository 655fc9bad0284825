// Document 01's sheets marked P and those of document 02's requests 1 and 2, proved together: one list, one statement about every entry.
#![tactic(auto)]
