// Document 01, "Reckoned by hand": P1 to P10 as one table of the definitions' results, proved by one theorem.
#![tactic(auto)]
