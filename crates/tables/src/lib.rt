// Tables and marks, of 01's "Papers on the wire" and "Station ends", as they lie in the words and bytes that are lent.
// offsets: where a relation lies. shape: whether tables fit. rows: one row. columns, values: a column's kept values. rising: rising lists.
// Below lies paths. semijoin, ends and answerer go by it; it knows nothing of programs and messages.
#![tactic(auto)]

mod columns;
pub mod offsets;
pub mod rising;
pub mod rows;
pub mod shape;
pub mod values;
