// Demand 3: for every list of calls and every group of at most t posts, as many draws show the group's record under one list of
// secrets as under another. Definitions and theorems only.
#![tactic(auto)]
