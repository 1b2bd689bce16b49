// Making messages: the values of a step's right column, and the rows of a relation, from the marks of now.
ghost use Rattle.std.specs.Prelude.{◌≡◌, ◌&&◌, length, nat_lt};
ghost use Rattle.contents.specs.Sites.{is_at};
ghost use Rattle.ground.specs.Refusing.{judgement};
ghost use Rattle.fields.specs.Puts.{written_of, written_in};
ghost use Rattle.ends.specs.Reducing.{step_count};
ghost use Rattle.ends.specs.Ends.{Usable};
ghost use Rattle.station.specs.Making.{send_tests, values_with, make_values_of, rows_with, make_rows_of};

use contents::envelope::Envelope;
use ends::ends::End;
use ground::refusals::{Reason, Refusal};
use papers::checks::Papers;
use papers::programs::Program;

// 14, 12: a message is ours, which is a fact and chooses no step, and none of the steps of its relation below n is missing.
fn judge_sending(
    program: Program,
    applied: [u32; 8],
    ours: bool,
    relation: u8,
    n: usize,
) -> Result<(), Refusal>
    ensures { result ≡ judgement (send_tests program applied ours relation n) }
{
    if !ours {
        return Err(Reason::NotOurs.at(0));
    }
    let done = ends::ends::applied_of(applied, relation);
    let missing = ends::reducing::missing_of(program, relation, done, n);
    match missing {
        Some(step) => Err(Reason::Waiting.at(step)),
        None => Ok(()),
    }
}

// Whether a step exists and its right relation is at a site.
fn sends_step(envelope: Envelope, program: Program, site: u32, n: usize, relation: u8) -> bool
    ensures { result ≡ (nat_lt n (step_count program) && is_at envelope site relation) }
{
    if ends::reducing::step_count(program) as usize <= n {
        return false;
    }
    contents::sites::is_at(envelope, site, relation)
}

// With a usable end: 14, 12, 11.
fn values_with(
    papers: Papers,
    end: End,
    tables: &[u32],
    marks: &[u8],
    step: u32,
    message: &mut [u32],
) -> Result<usize, Refusal>
    requires { Usable papers tables.now (length marks.now) }
    ensures { (result ≡ written_of (values_with papers end tables.now marks.now step (length message.old))) × (message.new ≡ written_in message.old (values_with papers end tables.now marks.now step (length message.old))) }
{
    let n = step as usize;
    let right = ends::reducing::step_of(papers.program, n).right;
    let ours = sends_step(papers.envelope, papers.program, end.site, n, right.relation);
    judge_sending(papers.program, end.applied, ours, right.relation, n)?;
    let count = tables::values::values_into(
        papers.envelope,
        right,
        tables,
        marks,
        ends::messages::FRONT,
        message,
    )?;
    ends::messages::put_front(message, end.run, step, count as u32);
    Ok(ends::messages::FRONT + count)
}

// The value message of a step: the end's papers and counts, 10, 11 (marks), 14, 12, 11 (message).
pub fn make_values(
    end: End,
    tables: &[u32],
    marks: &[u8],
    step: u32,
    message: &mut [u32],
) -> Result<usize, Refusal>
    ensures { (result ≡ written_of (make_values_of end tables.now marks.now step (length message.old))) × (message.new ≡ written_in message.old (make_values_of end tables.now marks.now step (length message.old))) }
{
    let papers = ends::ends::usable_end(end, tables, marks.len())?;
    values_with(papers, end, tables, marks, step, message)
}

// With a usable end: 14, 12, 11.
fn rows_with(
    papers: Papers,
    end: End,
    tables: &[u32],
    marks: &[u8],
    relation: u32,
    message: &mut [u32],
) -> Result<usize, Refusal>
    requires { Usable papers tables.now (length marks.now) }
    ensures { (result ≡ written_of (rows_with papers end tables.now marks.now relation (length message.old))) × (message.new ≡ written_in message.old (rows_with papers end tables.now marks.now relation (length message.old))) }
{
    if 7 < relation {
        return Err(Reason::NotOurs.at(0));
    }
    let own = relation as u8;
    let ours = contents::sites::is_at(papers.envelope, end.site, own);
    let steps = ends::reducing::step_count(papers.program);
    judge_sending(papers.program, end.applied, ours, own, steps as usize)?;
    crate::rows::put_row_message(papers.envelope, end.run, own, tables, marks, message)
}

// The row message of a relation: the end's papers and counts, 10, 11 (marks), 14, 12, 11 (message). It is a `?` and a call, as that of values is.
pub fn make_rows(
    end: End,
    tables: &[u32],
    marks: &[u8],
    relation: u32,
    message: &mut [u32],
) -> Result<usize, Refusal>
    ensures { (result ≡ written_of (make_rows_of end tables.now marks.now relation (length message.old))) × (message.new ≡ written_in message.old (make_rows_of end tables.now marks.now relation (length message.old))) }
{
    let papers = ends::ends::usable_end(end, tables, marks.len())?;
    rows_with(papers, end, tables, marks, relation, message)
}
