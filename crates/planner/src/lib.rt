// 01's "The planner": from an envelope to the steps to take, each with its benefit and cost, and the site to assemble at.
// candidates, choice: the greedy program. sites: the cheapest site. numbers, order, drops: drops. few: steps, and numbers of steps,
// as they are held. planner: all; plans: the answer.
// Below lies estimates, by whose numbers it chooses. listing prints a plan, and boundary writes its program.
#![tactic(auto)]

mod candidates;
mod choice;
mod drops;
mod few;
mod numbers;
mod order;
pub mod planner;
pub mod plans;
mod sites;
