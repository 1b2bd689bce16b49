// What the calls of 01's "Station ends" are made of: an end, the words of messages, and which steps of a relation were applied.
// ends: what an end remembers, and when it is sound. messages: a message's words. reducing: a relation's steps in program order.
// Below lie tables and papers. station, above, opens ends, makes messages and receives them; answerer answers from an end.
#![tactic(auto)]

pub mod ends;
pub mod messages;
pub mod reducing;
