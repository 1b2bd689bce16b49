// The answer, of 01's "Meaning": each combination of one row from every relation that meets all clauses, relation 0 slowest.
// combinations recurs over the relations left, and beginnings tests clauses; sources and stores have where rows lie.
// answer is the call on tables, assembly that at an end, from its store. Below lie tables, ends and station; boundary calls both.
#![tactic(auto)]

pub mod answer;
pub mod assembly;
mod beginnings;
mod combinations;
pub mod sources;
mod stores;
