// The calls on papers and on tables of every relation: the arguments read in order, the call, its outcome. None is inlined, so that the
// stack holds the buffers of the one call that is performed, and none before it.
use crate::input::{MOST, Stop, next_slice};
use crate::output::{put_answer, put_slice};
use boundary::given::{legestran_read_envelope, legestran_read_program};
use boundary::planning::{legestran_estimate, legestran_plan};
use boundary::running::{legestran_answer, legestran_run_in_one_place};
use std::io::{Read, Write};

#[inline(never)]
pub(crate) fn read_envelope<R: Read, W: Write>(
    script: &mut R,
    outcomes: &mut W,
) -> Result<(), Stop> {
    let mut envelope = [0u8; MOST];
    let envelope = next_slice(script, &mut envelope)?;
    put_answer(outcomes, legestran_read_envelope(envelope))?;
    Ok(())
}

#[inline(never)]
pub(crate) fn read_program<R: Read, W: Write>(
    script: &mut R,
    outcomes: &mut W,
) -> Result<(), Stop> {
    let mut envelope = [0u8; MOST];
    let mut program = [0u8; MOST];
    let envelope = next_slice(script, &mut envelope)?;
    let program = next_slice(script, &mut program)?;
    put_answer(outcomes, legestran_read_program(envelope, program))?;
    Ok(())
}

#[inline(never)]
pub(crate) fn plan<R: Read, W: Write>(script: &mut R, outcomes: &mut W) -> Result<(), Stop> {
    let mut envelope = [0u8; MOST];
    let mut program = [0u8; MOST];
    let envelope = next_slice(script, &mut envelope)?;
    let program = next_slice(script, &mut program)?;
    put_answer(outcomes, legestran_plan(envelope, program))?;
    put_slice(outcomes, program)?;
    Ok(())
}

#[inline(never)]
pub(crate) fn run_in_one_place<R: Read, W: Write>(
    script: &mut R,
    outcomes: &mut W,
) -> Result<(), Stop> {
    let mut envelope = [0u8; MOST];
    let mut program = [0u8; MOST];
    let mut tables = [0u32; MOST];
    let mut marks = [0u8; MOST];
    let envelope = next_slice(script, &mut envelope)?;
    let program = next_slice(script, &mut program)?;
    let tables = next_slice(script, &mut tables)?;
    let marks = next_slice(script, &mut marks)?;
    let answer = legestran_run_in_one_place(envelope, program, tables, marks);
    put_answer(outcomes, answer)?;
    put_slice(outcomes, marks)?;
    Ok(())
}

#[inline(never)]
pub(crate) fn answer<R: Read, W: Write>(script: &mut R, outcomes: &mut W) -> Result<(), Stop> {
    let mut envelope = [0u8; MOST];
    let mut tables = [0u32; MOST];
    let mut out = [0u32; MOST];
    let envelope = next_slice(script, &mut envelope)?;
    let tables = next_slice(script, &mut tables)?;
    let out = next_slice(script, &mut out)?;
    put_answer(outcomes, legestran_answer(envelope, tables, out))?;
    put_slice(outcomes, out)?;
    Ok(())
}

#[inline(never)]
pub(crate) fn estimate<R: Read, W: Write>(script: &mut R, outcomes: &mut W) -> Result<(), Stop> {
    let mut envelope = [0u8; MOST];
    let mut program = [0u8; MOST];
    let mut out = [0u32; MOST];
    let envelope = next_slice(script, &mut envelope)?;
    let program = next_slice(script, &mut program)?;
    let out = next_slice(script, &mut out)?;
    put_answer(outcomes, legestran_estimate(envelope, program, out))?;
    put_slice(outcomes, out)?;
    Ok(())
}
