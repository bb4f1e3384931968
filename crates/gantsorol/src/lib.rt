// The library's calls for C and Rust: a number passes as itself, a session by value, a list as a pointer and a length.
//
// Each function is its call and nothing else, with the call's own contract. None has a `requires`: any values and any
// lengths get an answer. Lists that overlap are the one thing that a caller must not lend.
#![tactic(auto)]

pub mod broadcast;
pub mod calls;
pub mod pack_files;
pub mod record;
pub mod relations;
pub mod testers;
pub mod turns;
