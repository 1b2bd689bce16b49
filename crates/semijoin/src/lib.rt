// The semi-join, of 01's "Meaning" and "Station ends": local operations, a relation reduced by values, the one-place run.
// local has the marks at opening; marks what a step leaves of them; run opens all relations and takes every step.
// Below lie tables and papers. The station end, above, knows it only by its promise: specs/Promise.antt and CallPromise.antt.
#![tactic(auto)]

pub mod local;
pub mod marks;
pub mod run;
