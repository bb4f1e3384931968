// Relations: a sum of terms, each a coefficient times a number or times a product of two, none of them shown. Here are the definitions of
// the two calls and the checks that they share. The masks of all product terms are crate relation_masks, the finish is crate relation_finish.
#![tactic(auto)]

pub mod checks;
