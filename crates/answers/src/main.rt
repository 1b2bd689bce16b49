// Answers, run: those of the same day, on number and on date, on tables and at an end after a run, and each refusal of an answer
// at an end; under each line the buffer that was lent, as it is afterwards. COUPON (number, date) is relation 0 at site 1, where the
// answer is assembled; WEIGH (number, date, loss) is relation 1 at site 2; step 0 reduces COUPON by WEIGH.
#![tactic(auto)]

use contents::envelope::Envelope;
use ends::ends::End;
use entries::clauses::{Clause, ClauseKind};
use entries::places::Place;
use ground::refusals::Refusal;
use papers::programs::Program;
use paths::steps::Step;
use std::io;

const RUN: u32 = 5;

const NUMBER: u8 = 0;

const DATE: u8 = 1;

const WHOLE: [u32; 20] = [
    3, 4, 11, 20, 12, 20, 13, 21, 11, 20, 5, 12, 20, 7, 12, 20, 7, 14, 22, 3,
];

const COUPONS: [u32; 8] = [3, 0, 11, 20, 12, 20, 13, 21];

const WEIGHTS: [u32; 14] = [0, 4, 11, 20, 5, 12, 20, 7, 12, 20, 7, 14, 22, 3];

// A line of numbers.
fn print_words(rt: &impl Print, what: &str, words: &[u32]) -> io::Result<()> {
    print!(rt; "{what}")?;
    for word in words {
        print!(rt; " ")?;
        print!(rt; "{word}")?;
    }
    println!(rt;)
}

fn print_answered(
    rt: &impl Print,
    what: &str,
    answered: Result<usize, Refusal>,
    out: &[u32],
) -> io::Result<()> {
    match answered {
        Ok(length) => println!(rt; "{what}: {length} words")?,
        Err(refusal) => println!(rt; "{what}: {refusal}")?,
    }
    print_words(rt, "  out", out)
}

fn place(relation: u8, column: u8) -> Place {
    Place { relation, column }
}

// Three domains of 100; COUPON and WEIGH joined on a column; targets COUPON's number and WEIGH's loss.
fn envelope_on(column: u8) -> Envelope {
    let mut envelope = envelopes::reading::read_envelope(
        b"CPN\x01\x00\x03\x64\x00\x00\x00\x64\x00\x00\x00\x64\x00\x00\x00\x02\x01\x02\x03\x00\x00\x00\x00\x02\x03\x00\x00\x00\x01\x02\x02\x00\x00\x00\x02\x03\x04\x00\x00\x00\x00\x02\x03\x00\x00\x00\x01\x02\x02\x00\x00\x00\x02\x02\x03\x00\x00\x00\x01\x02\x00\x00\x01\x00\x02\x00\x00\x01\x02",
    ).unwrap_or(contents::envelope::no_envelope());
    let clause = Clause {
        kind: ClauseKind::Join {
            left: place(0, column),
            right: place(1, column),
        },
    };
    envelope.clauses = [clause; 12];
    envelope
}

fn program_on(column: u8) -> Program {
    let step = Step {
        left: place(0, column),
        right: place(1, column),
    };
    Program {
        site: 1,
        count: 1,
        steps: [step; 156],
    }
}

// ---- on tables

fn on_tables(rt: &impl Print, what: &str, column: u8) -> io::Result<()> {
    let whole = WHOLE;
    let mut out = [9u32; 14];
    let answered = answerer::answer::answer(envelope_on(column), &whole, &mut out);
    print_answered(rt, what, answered, &out)
}

// ---- at an end

fn asked(rt: &impl Print, what: &str, end: End, store: &[u32]) -> io::Result<()> {
    let mut out = [9u32; 14];
    let answered = answerer::assembly::answer_at_end(end, store, &mut out);
    print_answered(rt, what, answered, &out)
}

// The end that answers, after a message that was made; as it was, where none was made.
fn delivered(
    end: End,
    marks: &mut [u8],
    store: &mut [u32],
    made: Result<usize, Refusal>,
    message: &[u32],
) -> End {
    let coupons = COUPONS;
    let mut after = end;
    if let Ok(length) = made {
        if let Some(sent) = message.get(..length) {
            let _ = station::receiving::receive(&mut after, &coupons, marks, store, sent);
        }
    }
    after
}

// A message made at site 2, by the call that makes it: the number is that of the step, or of the relation.
fn made_there<F: FnOnce(End, &[u32], &[u8], u32, &mut [u32]) -> Result<usize, Refusal>>(
    column: u8,
    make: F,
    number: u32,
    message: &mut [u32],
) -> Result<usize, Refusal>
    requires { F.IsAlwaysCallable make }
{
    let weights = WEIGHTS;
    let envelope = envelope_on(column);
    let program = program_on(column);
    let mut marks = [9u8; 4];
    let end = station::opening::open(envelope, program, 2, RUN, &weights, &mut marks)?;
    make(end, &weights, &marks, number, message)
}

// The end at site 1 with step 0 applied.
fn reduced(column: u8, marks: &mut [u8], store: &mut [u32]) -> Result<End, Refusal> {
    let coupons = COUPONS;
    let envelope = envelope_on(column);
    let program = program_on(column);
    let mut message = [9u32; 16];
    let end = station::opening::open(envelope, program, 1, RUN, &coupons, marks)?;
    let values = made_there(column, station::making::make_values, 0, &mut message);
    Ok(delivered(end, marks, store, values, &message))
}

// With its own rows arrived, then with those of WEIGH.
fn with_coupons(end: End, marks: &mut [u8], store: &mut [u32]) -> End {
    let coupons = COUPONS;
    let mut message = [9u32; 16];
    let own = station::making::make_rows(end, &coupons, marks, 0, &mut message);
    delivered(end, marks, store, own, &message)
}

fn with_weights(column: u8, end: End, marks: &mut [u8], store: &mut [u32]) -> End {
    let mut message = [9u32; 16];
    let rows = made_there(column, station::making::make_rows, 1, &mut message);
    delivered(end, marks, store, rows, &message)
}

fn gathered(rt: &impl Print, column: u8, store: &mut [u32]) -> io::Result<Option<End>> {
    let mut marks = [9u8; 3];
    let Ok(start) = reduced(column, &mut marks, store) else {
        return Ok(None);
    };
    asked(rt, "before any rows", start, store)?;
    let first = with_coupons(start, &mut marks, store);
    asked(rt, "without the rows of WEIGH", first, store)?;
    Ok(Some(with_weights(column, first, &mut marks, store)))
}

fn with_used(end: End, used: usize) -> End {
    let mut other = end;
    other.used = used;
    other
}

fn refused_by_store(rt: &impl Print, end: End, store: &[u32]) -> io::Result<()> {
    asked(
        rt,
        "with words in use past the store",
        with_used(end, 21),
        store,
    )?;
    asked(rt, "with a message cut short", with_used(end, 15), store)?;
    asked(rt, "with a message missing", with_used(end, 5), store)?;
    let mut other = end;
    other.run = 6;
    asked(rt, "with messages of another run", other, store)?;
    let mut unmarked = end;
    unmarked.arrived = [false; 8];
    asked(rt, "with no relation marked as arrived", unmarked, store)?;
    asked(
        rt,
        "with nothing arrived and nothing in use",
        with_used(unmarked, 0),
        store,
    )
}

fn refused(rt: &impl Print, end: End, store: &[u32]) -> io::Result<()> {
    let mut version = end;
    let mut envelope = end.envelope;
    envelope.version = 2;
    version.envelope = envelope;
    asked(rt, "by another version", version, store)?;
    let mut many = end;
    many.applied = [2u32; 8];
    asked(rt, "with more applied than there are", many, store)?;
    let mut away = with_used(end, 21);
    away.site = 2;
    asked(
        rt,
        "at another site, with words in use past the store",
        away,
        store,
    )?;
    refused_by_store(rt, end, store)?;
    let mut out = [9u32; 5];
    let answered = answerer::assembly::answer_at_end(end, store, &mut out);
    print_answered(rt, "with too little room", answered, &out)
}

// What stands at an end, and the answer asked of it.
fn at_end(rt: &impl Print, what: &str, column: u8, store: &mut [u32]) -> io::Result<Option<End>> {
    let gathered = gathered(rt, column, store)?;
    if let Some(end) = gathered {
        print_words(rt, "store", store)?;
        asked(rt, what, end, store)?;
    }
    Ok(gathered)
}

fn main(rt: HostRuntime) -> io::Result<()> {
    on_tables(&rt, "on number, on tables", NUMBER)?;
    on_tables(&rt, "on date, on tables", DATE)?;
    let mut store = [9u32; 20];
    let end = at_end(&rt, "on number, at an end", NUMBER, &mut store)?;
    at_end(&rt, "on date, at an end", DATE, &mut [9u32; 20])?;
    match end {
        Some(end) => refused(&rt, end, &store),
        None => Ok(()),
    }
}
