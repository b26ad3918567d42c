// What the replay writes for a whole input, however it is cut into chunks: definitions and theorems, no code.
#![tactic(auto)]
