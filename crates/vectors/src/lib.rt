// Theorems only: one vector for each shared number, of which every post's row is a linear image; and one opening, exact.
#![tactic(auto)]
