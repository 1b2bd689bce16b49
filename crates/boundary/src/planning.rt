// The calls that plan and estimate: the program for an envelope, written; what a program is expected to cost, in words.
ghost use Rattle.std.specs.Prelude.{◌≡◌, ◌++◌, length, set, take, ◌+◌, ◌≤◌};
ghost use Rattle.std.proofs.lemmas.List.Edits.{sets};
ghost use Rattle.ground.specs.Lists.{each};
ghost use Rattle.fields.specs.Puts.{fitted, written_of, written_in, Puts};
ghost use Rattle.estimates.specs.Estimate.{line_steps};
ghost use Rattle.boundary.specs.Answers.{written_number};
ghost use Rattle.boundary.specs.Planning.{program_of, plan_from, pair_of, line_words, estimate_words, estimate_from};
ghost use Rattle.papers.specs.Programs.{program_written, program_written_in};

use crate::answers::answer_of;
use contents::envelope::Envelope;
use estimates::lines::{Estimate, Line};
use ground::refusals::{Reason, Refusal};
use papers::programs::Program;
use paths::steps::Step;
use planner::plans::Plan;
use std::array;

// The steps of a plan's lines. They are lent, as the plan is: its lines are most of the stack that the header states, and are held once.
fn line_steps(lines: &[Line]) -> [Step; 156]
    requires { length lines.now ≡ 156 }
    ensures { result ≡ line_steps lines.now }
{
    array::from_fn(|i| lines[i].step)
}

// The program handed out.
fn program_of(plan: &Plan) -> Program
    ensures { result ≡ program_of plan.now }
{
    Program {
        site: plan.site,
        count: plan.count,
        steps: line_steps(&plan.lines),
    }
}

// The program of a plan, written. Not inlined, so that what writing needs of the stack is not there while planning.
#[inline(never)]
fn write_planned(own: Envelope, plan: &Plan, program: &mut [u8]) -> Result<usize, Refusal>
    ensures { (result ≡ program_written own (program_of plan.now) program.old) × (program.new ≡ program_written_in own (program_of plan.now) program.old) }
{
    papers::programs::write_program(own, program_of(plan), program)
}

fn write_plan(envelope: &[u8], program: &mut [u8]) -> Result<usize, Refusal>
    ensures { (result ≡ written_of (plan_from envelope.now (length program.old))) × (program.new ≡ written_in program.old (plan_from envelope.now (length program.old))) }
{
    let own = envelopes::reading::read_envelope(envelope)?;
    match &planner::planner::plan_paper(envelope) {
        Ok(plan) => write_planned(own, plan, program),
        Err(refusal) => Err(*refusal),
    }
}

// 3: the program for an envelope, at the front of program. Taken, the bytes written.
pub fn legestran_plan(envelope: &[u8], program: &mut [u8]) -> u64
    ensures { (result ≡ written_number (written_of (plan_from envelope.now (length program.old)))) × (program.new ≡ written_in program.old (plan_from envelope.now (length program.old))) }
{
    answer_of(write_plan(envelope, program))
}

// One word, where the buffer goes that far: of a `get_mut` that finds none it is not known that the buffer stays.
fn put_word(out: &mut [u32], at: usize, value: u32)
    ensures { out.new ≡ set out.old at value }
{
    if at < out.len() {
        out[at] = value;
    }
}

// A number as two words, the low one first.
fn put_pair(out: &mut [u32], at: usize, value: u64)
    requires { at ≤ 50000 }
    ensures { out.new ≡ sets out.old at (pair_of value) }
{
    put_word(out, at, (value % 4294967296) as u32);
    put_word(out, at + 1, (value / 4294967296) as u32);
}

// Two numbers, four words.
fn put_two(out: &mut [u32], at: usize, first: u64, second: u64) -> usize
    requires { at ≤ 40000 }
    ensures { Puts out.old at 4 (pair_of first ++ pair_of second) result out.new }
{
    put_pair(out, at, first);
    put_pair(out, at + 2, second);
    at + 4
}

// The lines in use: benefit and cost of each, in words, so that they are no parts of a paper.
fn put_lines(out: &mut [u32], lines: &[Line]) -> usize
    requires { length lines.now ≤ 156 }
    ensures { Puts out.old 0 624 (each line_words lines.now) result out.new }
{
    let mut p: usize = 0;
    for line in lines {
        p = put_two(out, p, line.benefit, line.cost);
    }
    p
}

// The words of an estimate, or 11.
fn put_estimate(estimate: Estimate, out: &mut [u32]) -> Result<usize, Refusal>
    ensures { (result ≡ written_of (fitted (length out.old) (estimate_words estimate))) × (out.new ≡ written_in out.old (fitted (length out.old) (estimate_words estimate))) }
{
    let lines = ground::used::first(&estimate.lines, estimate.count);
    if out.len() < 4 * lines.len() + 4 {
        return Err(Reason::TooShort.at(0));
    }
    let p = put_lines(out, lines);
    Ok(put_two(out, p, estimate.assembly, estimate.total))
}

fn write_estimate(envelope: &[u8], program: &[u8], out: &mut [u32]) -> Result<usize, Refusal>
    ensures { (result ≡ written_of (estimate_from envelope.now program.now (length out.old))) × (out.new ≡ written_in out.old (estimate_from envelope.now program.now (length out.old))) }
{
    let papers = crate::given::read_papers(envelope, program)?;
    let estimate = estimates::estimator::estimate(papers.envelope, papers.program)?;
    put_estimate(estimate, out)
}

// 11: what a program is expected to cost, at the front of out. Taken, the words written.
pub fn legestran_estimate(envelope: &[u8], program: &[u8], out: &mut [u32]) -> u64
    ensures { (result ≡ written_number (written_of (estimate_from envelope.now program.now (length out.old)))) × (out.new ≡ written_in out.old (estimate_from envelope.now program.now (length out.old))) }
{
    answer_of(write_estimate(envelope, program, out))
}
