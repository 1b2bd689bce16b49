// What an envelope says, of 01's "Meaning": what a path joins, which steps are legal, which clauses are implied.
// labels finds what is on a path, steps tests a step, implied has the selections and equalities of a relation.
// Below lies envelopes. papers, estimates and semijoin go by it; specs/Meaning.antt has what an envelope means on tables.
#![tactic(auto)]

pub mod implied;
pub mod labels;
pub mod steps;
