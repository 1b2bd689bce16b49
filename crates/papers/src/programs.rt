// Step programs: read against an envelope, checked, written. Steps are tested by the labels of the envelope.
ghost use Rattle.std.specs.Prelude.{◌≡◌, ◌≤◌};
ghost use Rattle.ground.specs.Outcome.{read_of, taken_of};
ghost use Rattle.envelopes.specs.Rules.{Within};
ghost use Rattle.paths.specs.Labels.{by_labels};
ghost use Rattle.paths.specs.Steps.{legal_by};
ghost use Rattle.papers.specs.Programs.{
  no_step,
  no_program,
  step_at,
  steps_from,
  steps_then,
  program_by,
  program_against,
  program_bytes,
  read_program,
  check_program,
  program_written,
  program_written_in,
};

use contents::envelope::Envelope;
use fields::numbers::Width;
use ground::refusals::{Reason, Refusal};
use paths::labels::Labels;
use paths::steps::Step;

#[derive(Clone, Copy)]
pub struct Program {
    pub site: u8,
    pub count: u8,
    pub steps: [Step; 156],
}

// What stands in an array behind the last step.
pub fn no_step() -> Step
    ensures { result ≡ no_step }
{
    let place = entries::places::no_place();
    Step {
        left: place,
        right: place,
    }
}

// The empty program: what an end has before it is opened.
pub fn no_program() -> Program
    ensures { result ≡ no_program }
{
    Program {
        site: 0,
        count: 0,
        steps: [no_step(); 156],
    }
}

// Step i: its two columns, and it is legal.
fn read_step(
    s: &[u8],
    at: usize,
    i: usize,
    envelope: Envelope,
    labels: Labels,
) -> Result<(Step, usize), Refusal>
    ensures { result ≡ read_of (step_at (legal_by (by_labels labels.of envelope) envelope) envelope s.now i at) }
{
    let count = envelope.relation_count;
    let (left, middle) = entries::places::read_place(s, at, count, &envelope.relations)?;
    let (right, next) = entries::places::read_place(s, middle, count, &envelope.relations)?;
    let step = Step { left, right };
    if !paths::steps::legal_by(envelope, labels, step) {
        return Err(Reason::NotLegal.at(i));
    }
    Ok((step, next))
}

// The steps, as many as there are, and then nothing left over. A loop of its own, since a step's refusal has the step's number.
fn from_steps(
    s: &[u8],
    at: usize,
    site: u8,
    count: u8,
    envelope: Envelope,
    labels: Labels,
) -> Result<Program, Refusal>
    requires { count ≤ 156 }
    ensures { result ≡ taken_of (steps_from (legal_by (by_labels labels.of envelope) envelope) envelope s.now site count at) }
{
    let mut steps = [no_step(); 156];
    let mut end = at;
    for i in 0..count as usize {
        let (step, next) = read_step(s, end, i, envelope, labels)?;
        steps[i] = step;
        end = next;
    }
    if end < s.len() {
        return Err(Reason::LeftOver.at(end));
    }
    Ok(Program { site, count, steps })
}

// The count of steps, and the steps.
fn from_count(
    s: &[u8],
    at: usize,
    site: u8,
    envelope: Envelope,
    labels: Labels,
) -> Result<Program, Refusal>
    ensures { result ≡ taken_of (steps_then (legal_by (by_labels labels.of envelope) envelope) envelope s.now site at) }
{
    let (count, next) = fields::numbers::number_in(s, at, Width::One, 0, 156)?;
    from_steps(s, next, site, count as u8, envelope, labels)
}

// A program against an envelope that was found good, by the labels of that envelope. Private: by other labels, steps that are
// not legal would be taken.
fn read_program_by(s: &[u8], envelope: Envelope, labels: Labels) -> Result<Program, Refusal>
    ensures { result ≡ taken_of (program_by (legal_by (by_labels labels.of envelope) envelope) envelope s.now) }
{
    let (_, at) = fields::numbers::read_head(s, b'S', b'J', b'P', 1)?;
    let (site, next) = fields::numbers::number_at(s, at, Width::One)?;
    if !contents::sites::holds_relation(envelope, site as u8) {
        return Err(Reason::BeyondLimit.at(at));
    }
    from_count(s, next, site as u8, envelope, labels)
}

// An envelope, then a program: the envelope is checked first, as its bytes would be.
pub fn read_program(envelope: Envelope, s: &[u8]) -> Result<Program, Refusal>
    ensures { result ≡ taken_of (read_program envelope s.now) }
{
    let envelope = envelopes::reading::check_envelope(envelope)?;
    let labels = paths::labels::labels_of(envelope);
    read_program_by(s, envelope, labels)
}

// A program that is a struct, as its bytes would be, against an envelope that was taken.
pub(crate) fn program_against(envelope: Envelope, program: Program) -> Result<Program, Refusal>
    requires { Within envelope }
    ensures { result ≡ taken_of (program_against envelope (program_bytes program)) }
{
    let labels = paths::labels::labels_of(envelope);
    let mut bytes = [0u8; 631];
    let n = crate::puts::put_program(&mut bytes, program);
    read_program_by(&bytes[..n], envelope, labels)
}

// A program that is a struct, checked as its bytes would be; what comes back is what those bytes read as.
pub fn check_program(envelope: Envelope, program: Program) -> Result<Program, Refusal>
    ensures { result ≡ taken_of (check_program envelope program) }
{
    let papers = crate::checks::check_papers(envelope, program)?;
    Ok(papers.program)
}

// The bytes of a program to the front of a lent buffer, once envelope and program were checked; 11 where they do not fit.
pub fn write_program(envelope: Envelope, program: Program, out: &mut [u8]) -> Result<usize, Refusal>
    ensures { (result ≡ program_written envelope program out.old) × (out.new ≡ program_written_in envelope program out.old) }
{
    check_program(envelope, program)?;
    let mut bytes = [0u8; 631];
    let n = crate::puts::put_program(&mut bytes, program);
    fields::puts::write_front(&bytes[..n], out)
}
