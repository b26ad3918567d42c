// Theorems of the rack, over any calls. There is no code here.
#![tactic(auto)]
