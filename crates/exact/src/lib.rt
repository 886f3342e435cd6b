// What the merge comes to in document 01's words: when it refuses by 32 to 36, what memory holds of an event, clocks and machines. All stands in specs/; no function is needed.
#![tactic(auto)]
