// Definitions and theorems only: what a relation's two calls leave is what the single calls leave, made for one product term after the
// other: its masks what `masks` leaves, and its finish what `collect` and `multiply` leave, and the sum of the terms.
#![tactic(auto)]
