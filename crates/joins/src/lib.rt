// What the tables of a manifest and a sheet come to together. There is no code: the laws stand in specs/.
#![tactic(auto)]
