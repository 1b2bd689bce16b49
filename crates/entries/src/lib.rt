// The entries of an envelope, as 01's "Papers on the wire" lists them, each read from a paper's bytes.
// places: a column named by its relation. relations: a relation with its columns. clauses: a selection or a join.
// Below lies fields. envelopes reads its lists of these entries, and papers the two places of a step.
#![tactic(auto)]

pub mod clauses;
pub mod places;
pub mod relations;
