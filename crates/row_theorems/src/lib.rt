// Theorems of the rows of a start and of a request. There is no code here.
#![tactic(auto)]
