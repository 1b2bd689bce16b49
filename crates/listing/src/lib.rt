// What the program `plan` prints, as 01's "Figures to check" has it, put into a lent buffer.
// listing has the lines of a plan, or the one line of a refusal; texts has words and decimal numbers.
// Below lies planner; the program plan, above, reads an envelope's bytes and prints what is in the buffer.
#![tactic(auto)]

pub mod listing;
mod texts;
