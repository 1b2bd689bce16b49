// 01's "Estimates": what operations are expected to leave, to bring and to cost, and what a given program costs in all.
// division has the rounding and Y; columns widths; profiles and locals rows and counts; costs prices; estimator and lines a program.
// Below lies papers. The planner chooses steps by these numbers, listing prints them, and boundary hands them out.
#![tactic(auto)]

mod columns;
pub mod costs;
mod division;
pub mod estimator;
pub mod lines;
pub mod locals;
pub mod profiles;
