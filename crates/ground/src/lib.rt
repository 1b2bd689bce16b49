// The ground: lists, outcomes, loops and numbers as bytes. There is no word of the field in it, so it renders no part of 01, but for the
// reasons that we refuse by: their table is 01's.
// used: how much of an array is in use; least: a turn of the search for the least number. refusals: why a call is refused.
// Nothing lies below it, and every library above is written with it: specs/ has the definitions, proofs/ their laws.
#![tactic(auto)]

pub mod least;
pub mod refusals;
pub mod used;
