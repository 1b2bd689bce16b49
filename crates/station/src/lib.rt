// 01's "Station ends": an end is opened, makes value and row messages, and receives them.
// opening, making and receiving have the calls, each tests in 01's order and then one effect; rows writes the rows of a message.
// Below lie ends, and semijoin by its promise alone. Tables, marks, store and messages are lent at each call.
#![tactic(auto)]

pub mod making;
pub mod opening;
pub mod receiving;
mod rows;
