// How a driver's list is written. There is no code here.
#![tactic(auto)]
