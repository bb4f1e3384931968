// Definitions and theorems only: what is drawn, what a post calls, and what one call makes of a post. Both theorems about whole
// runs, `correctness` and `secrecy`, stand on it.
#![tactic(auto)]
