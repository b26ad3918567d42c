// Theorems of what the interlock chip is sent. There is no code here.
#![tactic(auto)]
