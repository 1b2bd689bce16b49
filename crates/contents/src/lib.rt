// What an envelope holds: its parts, of 01's "Papers on the wire", and its kept columns, of 01's "Meaning".
// envelope has the type, with a count for each part; parts a relation's columns; sites where relations are; kept the kept columns.
// Below lies entries. envelopes reads, checks and writes the whole; most crates above ask here what an envelope holds.
#![tactic(auto)]

pub mod envelope;
pub mod kept;
pub mod parts;
pub mod sites;
