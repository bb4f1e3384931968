// Demand 2's premises at work, and needed: runs of three posts for which they hold, and runs in which one of them is missing and an
// opening gives another number. Definitions and theorems only.
#![tactic(auto)]
