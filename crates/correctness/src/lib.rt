// Demand 2 over whole runs: an opening gives exactly the plain number. Definitions and theorems only.
#![tactic(auto)]
