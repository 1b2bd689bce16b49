// Performs a script of the boundary's calls, from standard input, and writes the outcome of each to standard output.
// input reads the script's words and slices; paper_calls and end_calls perform the calls; output writes what comes of them.
// Below lies boundary, and nothing lies above. bin/compare holds the outcomes against those of the second program.
#![tactic(auto)]

mod end_calls;
mod input;
mod output;
mod paper_calls;

use boundary::stations::{legestran_make_rows, legestran_make_values};
use input::Stop;
use std::io;
use std::io::{Read, Write};

// A script and its outcomes are 32-bit words, the low byte first. A call is its number and its arguments in order: a number is one
// word; a slice is its length and its elements, one word each. An outcome is the number and the value of the answer, then each
// slice that was lent for writing, as it is afterwards. Slices have up to 40,960 elements. Input that ends between two calls ends
// the program; a script that is damaged gets one line on standard error, and nothing is written of the call that is damaged.

// One call by its number, which the script has.
fn perform<R: Read, W: Write>(script: &mut R, outcomes: &mut W, call: u32) -> Result<(), Stop> {
    match call {
        1 => paper_calls::read_envelope(script, outcomes),
        2 => paper_calls::read_program(script, outcomes),
        3 => paper_calls::plan(script, outcomes),
        4 => paper_calls::run_in_one_place(script, outcomes),
        5 => paper_calls::answer(script, outcomes),
        6 => end_calls::open(script, outcomes),
        7 => end_calls::make(script, outcomes, legestran_make_values),
        8 => end_calls::make(script, outcomes, legestran_make_rows),
        9 => end_calls::receive(script, outcomes),
        10 => end_calls::answer_at_end(script, outcomes),
        11 => paper_calls::estimate(script, outcomes),
        _ => Err(Stop::Damaged),
    }
}

// A loop has to end, and nothing says that the input does: so it counts up to a number that no script uses up.
fn perform_all<R: Read, W: Write>(script: &mut R, outcomes: &mut W) -> Result<(), Stop> {
    for _ in 0..u64::MAX {
        let Some(call) = input::next_word(script)? else {
            break;
        };
        perform(script, outcomes, call)?;
    }
    Ok(())
}

fn main(rt: HostRuntime) -> io::Result<()> {
    match perform_all(&mut rt.stdin(), &mut rt.stdout()) {
        Ok(()) => Ok(()),
        Err(Stop::Damaged) => eprintln!(rt; "calls: the script is damaged"),
        Err(Stop::Failed(error)) => Err(error),
    }
}
