// Theorems of a channel. There is no code here.
#![tactic(auto)]
