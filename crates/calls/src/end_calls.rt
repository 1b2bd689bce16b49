// The calls on ends: the arguments read in order, the call, its outcome. None is inlined, as in paper_calls.
use crate::input::{MOST, Stop, next_number, next_slice};
use crate::output::{put_answer, put_slice};
use boundary::stations::{legestran_answer_at_end, legestran_open, legestran_receive};
use std::io::{Read, Write};

#[inline(never)]
pub(crate) fn open<R: Read, W: Write>(script: &mut R, outcomes: &mut W) -> Result<(), Stop> {
    let mut envelope = [0u8; MOST];
    let mut program = [0u8; MOST];
    let mut tables = [0u32; MOST];
    let mut marks = [0u8; MOST];
    let mut state = [0u32; MOST];
    let envelope = next_slice(script, &mut envelope)?;
    let program = next_slice(script, &mut program)?;
    let site = next_number(script)?;
    let run = next_number(script)?;
    let tables = next_slice(script, &mut tables)?;
    let marks = next_slice(script, &mut marks)?;
    let state = next_slice(script, &mut state)?;
    let answer = legestran_open(envelope, program, site, run, tables, marks, state);
    put_answer(outcomes, answer)?;
    put_slice(outcomes, marks)?;
    put_slice(outcomes, state)?;
    Ok(())
}

// A value message or a row message, by the call that makes it: the number is that of the step, or of the relation.
#[inline(never)]
pub(crate) fn make<
    R: Read,
    W: Write,
    F: FnOnce(&[u8], &[u8], &[u32], &[u32], &[u8], u32, &mut [u32]) -> u64,
>(script: &mut R, outcomes: &mut W, make: F) -> Result<(), Stop>
    requires { F.IsAlwaysCallable make }
{
    let mut envelope = [0u8; MOST];
    let mut program = [0u8; MOST];
    let mut state = [0u32; MOST];
    let mut tables = [0u32; MOST];
    let mut marks = [0u8; MOST];
    let mut message = [0u32; MOST];
    let envelope = next_slice(script, &mut envelope)?;
    let program = next_slice(script, &mut program)?;
    let state = next_slice(script, &mut state)?;
    let tables = next_slice(script, &mut tables)?;
    let marks = next_slice(script, &mut marks)?;
    let number = next_number(script)?;
    let message = next_slice(script, &mut message)?;
    let answer = make(envelope, program, state, tables, marks, number, message);
    put_answer(outcomes, answer)?;
    put_slice(outcomes, message)?;
    Ok(())
}

#[inline(never)]
pub(crate) fn receive<R: Read, W: Write>(script: &mut R, outcomes: &mut W) -> Result<(), Stop> {
    let mut envelope = [0u8; MOST];
    let mut program = [0u8; MOST];
    let mut state = [0u32; MOST];
    let mut tables = [0u32; MOST];
    let mut marks = [0u8; MOST];
    let mut store = [0u32; MOST];
    let mut message = [0u32; MOST];
    let envelope = next_slice(script, &mut envelope)?;
    let program = next_slice(script, &mut program)?;
    let state = next_slice(script, &mut state)?;
    let tables = next_slice(script, &mut tables)?;
    let marks = next_slice(script, &mut marks)?;
    let store = next_slice(script, &mut store)?;
    let message = next_slice(script, &mut message)?;
    let answer = legestran_receive(envelope, program, state, tables, marks, store, message);
    put_answer(outcomes, answer)?;
    put_slice(outcomes, state)?;
    put_slice(outcomes, marks)?;
    put_slice(outcomes, store)?;
    Ok(())
}

#[inline(never)]
pub(crate) fn answer_at_end<R: Read, W: Write>(
    script: &mut R,
    outcomes: &mut W,
) -> Result<(), Stop> {
    let mut envelope = [0u8; MOST];
    let mut program = [0u8; MOST];
    let mut state = [0u32; MOST];
    let mut store = [0u32; MOST];
    let mut out = [0u32; MOST];
    let envelope = next_slice(script, &mut envelope)?;
    let program = next_slice(script, &mut program)?;
    let state = next_slice(script, &mut state)?;
    let store = next_slice(script, &mut store)?;
    let out = next_slice(script, &mut out)?;
    let answer = legestran_answer_at_end(envelope, program, state, store, out);
    put_answer(outcomes, answer)?;
    put_slice(outcomes, out)?;
    Ok(())
}
