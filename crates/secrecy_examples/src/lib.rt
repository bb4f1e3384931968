// Demand 3's premises at work: two lists of calls, each with two lists of secrets and a record that is shown. Definitions and
// theorems only.
#![tactic(auto)]
