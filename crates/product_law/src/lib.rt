// Definitions and a theorem only: document 01's finish, and that the two calls which it became, `collect` and `multiply`, leave what it
// left.
#![tactic(auto)]
