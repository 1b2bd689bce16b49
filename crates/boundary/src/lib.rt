// Every call of the library on plain slices and numbers, for Rust and C under the names in include/legestran.h.
// given: papers and ends, read. planning, running, stations: the other calls. answers: one number. states: an end as 19 words.
// Below lie planner, semijoin, station and answerer, of whose calls these are composed; above, boundary_c exports them for C, and the
// program calls performs scripts of them.
#![tactic(auto)]

mod answers;
pub mod given;
pub mod planning;
pub mod running;
mod states;
pub mod stations;
