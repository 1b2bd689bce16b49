// Papers at their limits, of 01's "Figures to check" and "Numbers we refuse by", run: each line is how one paper is answered.
// The small envelope below is taken, and each case changes it in one place; refusals 1 to 9, with their positions, are among them.
// Below lies papers, and nothing lies above. What is printed is compared with the file stdout of this crate.
#![tactic(auto)]

use contents::envelope::Envelope;
use entries::places::Place;
use ground::refusals::Refusal;
use papers::programs::Program;
use paths::steps::Step;
use std::io;

// Domains of 10 and 20; relation 0 at site 1 with 5 rows and a column of each domain, relation 1 at site 2 with 5 rows
// and a column of the first; a join of the two; a target.
const SMALL: [u8; 54] = [
    67, 80, 78, 1, 0, 2, 10, 0, 0, 0, 20, 0, 0, 0, 2, 1, 2, 5, 0, 0, 0, 0, 1, 5, 0, 0, 0, 1, 2, 3,
    0, 0, 0, 2, 1, 5, 0, 0, 0, 0, 4, 2, 0, 0, 0, 1, 2, 0, 0, 1, 0, 1, 0, 1,
];

// Whether what was read or checked is taken.
fn print_taken<T: Drop>(rt: &impl Print, what: &str, answer: Result<T, Refusal>) -> io::Result<()> {
    match answer {
        Ok(_) => println!(rt; "{what}: taken"),
        Err(refusal) => println!(rt; "{what}: {refusal}"),
    }
}

// An envelope as bytes.
fn envelope(rt: &impl Print, what: &str, paper: &[u8]) -> io::Result<()> {
    print_taken(rt, what, envelopes::reading::read_envelope(paper))
}

// The small envelope with one byte changed.
fn changed(rt: &impl Print, what: &str, at: usize, value: u8) -> io::Result<()> {
    if at < 54 {
        let mut paper = SMALL;
        paper[at] = value;
        envelope(rt, what, &paper)?;
    }
    Ok(())
}

fn heads(rt: &impl Print) -> io::Result<()> {
    let paper = SMALL;
    envelope(rt, "the small envelope", &paper)?;
    envelope(rt, "the empty file", b"")?;
    envelope(rt, "cut inside the mark", &paper[..2])?;
    envelope(rt, "cut inside a size", &paper[..8])?;
    changed(rt, "another mark", 2, 79)?;
    changed(rt, "another version", 3, 2)?;
    changed(rt, "version 0x0101", 4, 1)
}

fn limits(rt: &impl Print) -> io::Result<()> {
    changed(rt, "no domain", 5, 0)?;
    changed(rt, "seventeen domains", 5, 17)?;
    changed(rt, "site 7", 15, 7)?;
    changed(rt, "site 8", 15, 8)?;
    changed(rt, "a distinct count above the rows", 23, 6)?;
    changed(rt, "a distinct count of 0 with rows", 23, 0)?;
    changed(rt, "a domain that is not there", 27, 2)?;
    changed(rt, "thirteen clauses", 45, 13)?;
    changed(rt, "a clause of a third kind", 46, 3)?;
    changed(rt, "a column that is not there", 48, 2)?;
    changed(rt, "no target", 51, 0)
}

fn rules(rt: &impl Print) -> io::Result<()> {
    changed(rt, "a join of two domains", 48, 1)?;
    changed(rt, "a join of a column with itself", 49, 0)?;
    // The small envelope with a byte behind it; and with no clause, so that relation 1 has no kept column.
    envelope(
        rt,
        "a byte left over",
        b"CPN\x01\x00\x02\x0a\x00\x00\x00\x14\x00\x00\x00\x02\x01\x02\x05\x00\x00\x00\x00\x01\x05\x00\x00\x00\x01\x02\x03\x00\x00\x00\x02\x01\x05\x00\x00\x00\x00\x04\x02\x00\x00\x00\x01\x02\x00\x00\x01\x00\x01\x00\x01\x00",
    )?;
    envelope(
        rt,
        "a relation with no kept column",
        b"CPN\x01\x00\x02\x0a\x00\x00\x00\x14\x00\x00\x00\x02\x01\x02\x05\x00\x00\x00\x00\x01\x05\x00\x00\x00\x01\x02\x03\x00\x00\x00\x02\x01\x05\x00\x00\x00\x00\x04\x02\x00\x00\x00\x00\x01\x00\x01",
    )
}

// The small envelope as a struct, with its clause standing that often.
fn clauses(rt: &impl Print, what: &str, small: Envelope, count: u8) -> io::Result<()> {
    let mut envelope = small;
    envelope.clauses = [small.clauses[0]; 12];
    envelope.clause_count = count;
    print_taken(rt, what, envelopes::reading::check_envelope(envelope))
}

// A program of relation left reduced by relation right, column 0 each, that often.
fn steps(
    rt: &impl Print,
    what: &str,
    small: Envelope,
    site: u8,
    count: u8,
    left: u8,
    right: u8,
) -> io::Result<()> {
    let step = Step {
        left: Place {
            relation: left,
            column: 0,
        },
        right: Place {
            relation: right,
            column: 0,
        },
    };
    let program = Program {
        site,
        count,
        steps: [step; 156],
    };
    print_taken(rt, what, papers::programs::check_program(small, program))
}

fn structs(rt: &impl Print, small: Envelope) -> io::Result<()> {
    clauses(rt, "twelve clauses", small, 12)?;
    clauses(rt, "thirteen clauses in a struct", small, 13)?;
    steps(rt, "156 steps", small, 1, 156, 0, 1)?;
    steps(rt, "157 steps", small, 1, 157, 0, 1)?;
    steps(rt, "a site that holds nothing", small, 3, 1, 0, 1)?;
    steps(rt, "a relation that is not there", small, 1, 1, 0, 2)?;
    steps(rt, "a step within a relation", small, 1, 1, 1, 1)
}

// An envelope written to a buffer.
fn written(rt: &impl Print, what: &str, envelope: Envelope, room: &mut [u8]) -> io::Result<()> {
    match envelopes::reading::write_envelope(envelope, room) {
        Ok(length) => println!(rt; "{what}: wrote {length}"),
        Err(refusal) => println!(rt; "{what}: {refusal}"),
    }
}

fn writers(rt: &impl Print, small: Envelope) -> io::Result<()> {
    written(rt, "written to 54 bytes", small, &mut [0u8; 54])?;
    written(rt, "written to 53 bytes", small, &mut [0u8; 53])
}

// A program as bytes.
fn program(rt: &impl Print, what: &str, small: Envelope, paper: &[u8]) -> io::Result<()> {
    print_taken(rt, what, papers::programs::read_program(small, paper))
}

fn programs(rt: &impl Print, small: Envelope) -> io::Result<()> {
    program(
        rt,
        "a program of one step",
        small,
        b"SJP\x01\x00\x01\x01\x00\x00\x01\x00",
    )?;
    program(rt, "an empty program paper", small, b"")?;
    program(
        rt,
        "a program cut inside its step",
        small,
        b"SJP\x01\x00\x01\x01\x00\x00\x01",
    )?;
    program(rt, "an envelope for a program", small, b"CPN\x01\x00")?;
    program(rt, "a program of version 2", small, b"SJP\x02\x00\x01\x00")?;
    program(
        rt,
        "bytes behind a program",
        small,
        b"SJP\x01\x00\x01\x00\x07",
    )?;
    program(
        rt,
        "a step off every path",
        small,
        b"SJP\x01\x00\x01\x02\x00\x00\x01\x00\x00\x01\x01\x00",
    )
}

// The first line of heads says that the small envelope is taken.
fn main(rt: HostRuntime) -> io::Result<()> {
    heads(&rt)?;
    limits(&rt)?;
    rules(&rt)?;
    if let Ok(small) = envelopes::reading::read_envelope(&SMALL) {
        structs(&rt, small)?;
        writers(&rt, small)?;
        programs(&rt, small)?;
    }
    Ok(())
}
