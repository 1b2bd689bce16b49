// The envelope, a question over the stations' tables, as a paper of 01's "Papers on the wire": read, checked and written.
// reading has the whole, its refusals in 01's order; sections its four lists, each read into its part; puts its bytes.
// Below lies contents, which has the envelope's type. paths, above, says what an envelope that was taken means.
#![tactic(auto)]

mod puts;
pub mod reading;
mod sections;
