// The marked examples of document 01, as one statement, and the merges that demand 2 shuts out. Both stand in specs/; no function is needed.
#![tactic(auto)]
