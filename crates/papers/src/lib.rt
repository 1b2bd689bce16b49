// Step programs, of 01's "Papers on the wire": read against an envelope, checked and written; and both papers checked at once.
// programs has the program, its reading, checking and writing; checks has both papers; puts a program's bytes.
// Below lies paths, which says what steps are legal. estimates, semijoin, ends and station check their papers here.
#![tactic(auto)]

pub mod checks;
pub mod programs;
mod puts;
