// Station ends, run: each line that is printed is how one call is answered, each refusal number that opening, making and
// receiving can give among them, and under it what was lent, as it is afterwards. A run at two sites: relation 0 at site 1,
// relation 1 at site 2, joined on their first columns; steps 0 and 2 reduce relation 0, step 1 relation 1.
#![tactic(auto)]

use contents::envelope::Envelope;
use ends::ends::End;
use entries::clauses::{Clause, ClauseKind};
use entries::places::Place;
use papers::programs::Program;
use paths::steps::Step;
use std::io;

mod making;
mod show;

const RUN: u32 = 5;

// The tables at site 1: relation 0 has the rows (1, 7) and (2, 8).
const HERE: [u32; 6] = [2, 0, 1, 7, 2, 8];

// Domains of 10 and 20; relation 0 with a column of each, relation 1 with a column of the first; a join; a target.
fn small() -> Envelope {
    envelopes::reading::read_envelope(
        b"CPN\x01\x00\x02\x0a\x00\x00\x00\x14\x00\x00\x00\x02\x01\x02\x05\x00\x00\x00\x00\x01\x05\x00\x00\x00\x01\x02\x03\x00\x00\x00\x02\x01\x05\x00\x00\x00\x00\x04\x02\x00\x00\x00\x01\x02\x00\x00\x01\x00\x01\x00\x01",
    ).unwrap_or(contents::envelope::no_envelope())
}

fn place(relation: u8, column: u8) -> Place {
    Place { relation, column }
}

fn step(left: u8, right: u8) -> Step {
    Step {
        left: place(left, 0),
        right: place(right, 0),
    }
}

fn three() -> Program {
    let mut steps = [step(0, 1); 156];
    steps[1] = step(1, 0);
    Program {
        site: 1,
        count: 3,
        steps: steps,
    }
}

// ---- opening

fn opening(
    rt: &impl Print,
    what: &str,
    envelope: Envelope,
    program: Program,
    site: u32,
    tables: &[u32],
) -> io::Result<()> {
    let mut marks = [9u8; 3];
    let answer = station::opening::open(envelope, program, site, RUN, tables, &mut marks);
    show::print_taken(rt, what, answer)?;
    show::print_numbers(rt, "  marks", &marks)
}

fn joined(rt: &impl Print, what: &str, left: Place, right: Place) -> io::Result<()> {
    let here = HERE;
    let mut envelope = small();
    let clause = Clause {
        kind: ClauseKind::Join { left, right },
    };
    envelope.clauses = [clause; 12];
    opening(rt, what, envelope, three(), 1, &here)
}

fn stepped(rt: &impl Print, what: &str, site: u8, left: u8, right: u8) -> io::Result<()> {
    let here = HERE;
    let program = Program {
        site: site,
        count: 1,
        steps: [step(left, right); 156],
    };
    opening(rt, what, small(), program, 1, &here)
}

fn versioned(rt: &impl Print, what: &str, version: u16, clauses: u8) -> io::Result<()> {
    let here = HERE;
    let mut envelope = small();
    envelope.version = version;
    envelope.clause_count = clauses;
    opening(rt, what, envelope, three(), 1, &here)
}

fn openings(rt: &impl Print) -> io::Result<()> {
    let here = HERE;
    opening(rt, "open", small(), three(), 1, &here)?;
    opening(rt, "open where nothing is", small(), three(), 3, &here)?;
    versioned(rt, "open by another version", 2, 1)?;
    joined(
        rt,
        "open by a column that is not there",
        place(0, 2),
        place(1, 0),
    )?;
    joined(
        rt,
        "open by a join of two domains",
        place(0, 1),
        place(1, 0),
    )?;
    joined(
        rt,
        "open by a join of a column with itself",
        place(1, 0),
        place(1, 0),
    )?;
    stepped(rt, "open with a step that is not legal", 1, 1, 1)?;
    stepped(rt, "open with assembly where nothing is", 3, 0, 1)?;
    versioned(rt, "open with no kept column", 1, 0)?;
    let short = [2u32, 0, 1];
    opening(rt, "open on tables cut short", small(), three(), 1, &short)?;
    opening(rt, "open at site 8", small(), three(), 8, &here)?;
    opening(rt, "open at site 257", small(), three(), 257, &here)?;
    let mut one = [9u8; 1];
    let answer = station::opening::open(small(), three(), 1, RUN, &here, &mut one);
    show::print_taken(rt, "open with one mark", answer)?;
    show::print_numbers(rt, "  marks", &one)
}

// ---- receiving

fn receiving_on(
    rt: &impl Print,
    what: &str,
    end: End,
    tables: &[u32],
    marks: &mut [u8],
    message: &[u32],
) -> io::Result<End> {
    let mut store = [9u32; 4];
    let mut after = end;
    let answer = station::receiving::receive(&mut after, tables, marks, &mut store, message);
    show::print_taken(rt, what, answer)?;
    show::print_numbers(rt, "  marks", marks)?;
    show::print_numbers(rt, "  store", &store)?;
    show::print_end(rt, after)?;
    Ok(after)
}

fn receiving(rt: &impl Print, what: &str, end: End, message: &[u32]) -> io::Result<End> {
    let here = HERE;
    let mut marks = [5u8, 7];
    receiving_on(rt, what, end, &here, &mut marks, message)
}

fn refusals(rt: &impl Print, end: End) -> io::Result<()> {
    receiving(rt, "receive two words", end, &[5u32, 0])?;
    receiving(rt, "receive of another run", end, &[6u32, 0, 0])?;
    receiving(rt, "receive for another site", end, &[5u32, 1, 0])?;
    receiving(rt, "receive of no such step", end, &[5u32, 3, 0])?;
    receiving(rt, "receive of no such relation", end, &[5u32, 258, 0])?;
    receiving(rt, "receive of second word 255", end, &[5u32, 255, 0])?;
    receiving(rt, "receive of second word 263", end, &[5u32, 263, 0])?;
    receiving(rt, "receive of second word 264", end, &[5u32, 264, 0])?;
    receiving(rt, "receive of second word 511", end, &[5u32, 511, 0])?;
    receiving(rt, "receive too few words", end, &[5u32, 0, 2, 3])?;
    receiving(
        rt,
        "receive values that do not rise",
        end,
        &[5u32, 0, 2, 3, 3],
    )?;
    receiving(
        rt,
        "receive a count of 4,097 without its words",
        end,
        &[5u32, 0, 4097],
    )?;
    receiving(
        rt,
        "receive the greatest count",
        end,
        &[5u32, 0, 4294967295],
    )?;
    receiving(
        rt,
        "receive the greatest count of rows",
        end,
        &[5u32, 256, 4294967295],
    )?;
    receiving(
        rt,
        "receive with an earlier step missing",
        end,
        &[5u32, 2, 1, 2],
    )?;
    receiving(
        rt,
        "receive rows that do not fit",
        end,
        &[5u32, 256, 1, 1, 7],
    )?;
    Ok(())
}

fn receivings(rt: &impl Print, end: End) -> io::Result<End> {
    refusals(rt, end)?;
    receiving(rt, "receive no value", end, &[5u32, 0, 0])?;
    let first = receiving(rt, "receive step 0", end, &[5u32, 0, 1, 2])?;
    making::rows(rt, "make rows with step 2 missing", first, 0)?;
    receiving(rt, "receive step 0 again", first, &[5u32, 0, 1, 2])?;
    let rows = receiving(rt, "receive rows of relation 1", first, &[5u32, 257, 1, 2])?;
    receiving(rt, "receive them again", rows, &[5u32, 257, 1, 2])?;
    let second = receiving(rt, "receive step 2", first, &[5u32, 2, 1, 2])?;
    Ok(second)
}

fn unsound(rt: &impl Print, end: End) -> io::Result<()> {
    let mut many = end;
    many.applied = [3u32; 8];
    receiving(
        rt,
        "receive with more applied than there are",
        many,
        &[5u32, 0, 0],
    )?;
    let mut full = end;
    full.used = 18446744073709551615;
    receiving(
        rt,
        "receive rows with more used than there is",
        full,
        &[5u32, 257, 1, 2],
    )?;
    let mut marks = [1u8; 1];
    let here = HERE;
    receiving_on(
        rt,
        "receive with one mark",
        end,
        &here,
        &mut marks,
        &[5u32, 0, 0],
    )?;
    let short = [2u32, 0, 1];
    receiving_on(
        rt,
        "receive on tables cut short",
        end,
        &short,
        &mut marks,
        &[5u32, 0, 0],
    )?;
    Ok(())
}

// A station delivers to itself: site 1 is the assembly site.
fn delivered(rt: &impl Print, last: End) -> io::Result<()> {
    let here = HERE;
    let mut marks = [0u8, 1];
    let mut message = [9u32; 5];
    let mut store = [9u32; 6];
    let mut end = last;
    let _ = station::making::make_rows(end, &here, &marks, 0, &mut message);
    let answer = station::receiving::receive(&mut end, &here, &mut marks, &mut store, &message);
    show::print_taken(rt, "receive rows where they were made", answer)?;
    show::print_numbers(rt, "  marks", &marks)?;
    show::print_numbers(rt, "  store", &store)?;
    show::print_end(rt, end)
}

// The first line says that the end is opened.
fn main(rt: HostRuntime) -> io::Result<()> {
    openings(&rt)?;
    let mut marks = [9u8; 3];
    if let Ok(end) = station::opening::open(small(), three(), 1, RUN, &HERE, &mut marks) {
        let last = receivings(&rt, end)?;
        unsound(&rt, end)?;
        making::makings(&rt, end, last)?;
        making::lent(&rt, last)?;
        delivered(&rt, last)?;
    }
    Ok(())
}
