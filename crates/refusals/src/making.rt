// Value messages and row messages made: taken, refused by the papers and the state, and refused by what is lent.
use crate::{HERE, show};
use ends::ends::End;
use ground::refusals::Refusal;
use station::making::{make_rows, make_values};
use std::io;

// A message by the call that makes it: the number is that of the step, or of the relation.
fn made<F: FnOnce(End, &[u32], &[u8], u32, &mut [u32]) -> Result<usize, Refusal>>(
    rt: &impl Print,
    what: &str,
    end: End,
    tables: &[u32],
    marks: &[u8],
    make: F,
    number: u32,
    message: &mut [u32],
) -> io::Result<()>
    requires { F.IsAlwaysCallable make }
{
    let made = make(end, tables, marks, number, message);
    show::print_made(rt, what, made, message)
}

fn values(rt: &impl Print, what: &str, end: End, step: u32) -> io::Result<()> {
    made(
        rt,
        what,
        end,
        &HERE,
        &[0u8, 1],
        make_values,
        step,
        &mut [9u32; 5],
    )
}

pub(crate) fn rows(rt: &impl Print, what: &str, end: End, relation: u32) -> io::Result<()> {
    made(
        rt,
        what,
        end,
        &HERE,
        &[0u8, 1],
        make_rows,
        relation,
        &mut [9u32; 6],
    )
}

pub(crate) fn makings(rt: &impl Print, end: End, last: End) -> io::Result<()> {
    values(rt, "make step 1 with step 0 missing", end, 1)?;
    values(rt, "make step 0 for another site", end, 0)?;
    values(rt, "make no such step", end, 3)?;
    values(rt, "make step 1", last, 1)?;
    rows(rt, "make rows with step 0 missing", end, 0)?;
    rows(rt, "make rows of another site", last, 1)?;
    rows(rt, "make rows of no such relation", last, 256)?;
    rows(rt, "make rows of relation 0", last, 0)?;
    made(
        rt,
        "make rows that do not fit",
        last,
        &HERE,
        &[0u8, 1],
        make_rows,
        0,
        &mut [9u32; 4],
    )
}

// The value message of step 1, and the row message of relation 0, where three words are lent.
fn made_values(
    rt: &impl Print,
    what: &str,
    end: End,
    tables: &[u32],
    marks: &[u8],
) -> io::Result<()> {
    made(rt, what, end, tables, marks, make_values, 1, &mut [9u32; 3])
}

fn made_rows(
    rt: &impl Print,
    what: &str,
    end: End,
    tables: &[u32],
    marks: &[u8],
) -> io::Result<()> {
    made(rt, what, end, tables, marks, make_rows, 0, &mut [9u32; 3])
}

pub(crate) fn lent(rt: &impl Print, last: End) -> io::Result<()> {
    let here = HERE;
    let short = [2u32, 0, 1];
    let marks = [0u8, 1];
    let mut many = last;
    many.applied = [3u32; 8];
    made_values(rt, "make step 1 on tables cut short", last, &short, &marks)?;
    made_values(rt, "make step 1 with one mark", last, &here, &[1u8])?;
    made_values(rt, "make values that do not fit", last, &here, &marks)?;
    made_values(
        rt,
        "make step 1 with more applied than there are",
        many,
        &here,
        &marks,
    )?;
    made_rows(rt, "make rows on tables cut short", last, &short, &marks)?;
    made_rows(rt, "make rows with one mark", last, &here, &[1u8])?;
    made_rows(
        rt,
        "make rows with more applied than there are",
        many,
        &here,
        &marks,
    )
}
