// The fields of a paper, of 01's "Papers on the wire".
// numbers reads numbers, mark and version; reader is a paper with a position; puts writes.
// Below lies ground. Both papers are read and written through this crate; every call above that writes answers as puts has it.
#![tactic(auto)]

pub mod lists;
pub mod numbers;
pub mod puts;
pub mod reader;
