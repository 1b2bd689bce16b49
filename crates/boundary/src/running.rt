// The calls on tables of every relation: the one-place run of a program, and the answer.
ghost use Rattle.std.specs.Prelude.{◌≡◌, length};
ghost use Rattle.ground.specs.Outcome.{verdict_of, value_of};
ghost use Rattle.fields.specs.Puts.{written_of, written_in};
ghost use Rattle.boundary.specs.Answers.{verdict_number, written_number};
ghost use Rattle.boundary.specs.Running.{run_from, answer_from};

use crate::answers::{answer_of, of_taken};
use ground::refusals::Refusal;

fn run(envelope: &[u8], program: &[u8], tables: &[u32], marks: &mut [u8]) -> Result<(), Refusal>
    ensures { (result ≡ verdict_of (run_from envelope.now program.now tables.now marks.old)) × (marks.new ≡ value_of marks.old (run_from envelope.now program.now tables.now marks.old)) }
{
    let papers = crate::given::read_papers(envelope, program)?;
    semijoin::run::run_in_one_place(papers.envelope, papers.program, tables, marks)
}

// 4: the one-place run of a program: the marks of every row, after local operations and every step. Taken, 0.
pub fn legestran_run_in_one_place(
    envelope: &[u8],
    program: &[u8],
    tables: &[u32],
    marks: &mut [u8],
) -> u64
    ensures { (result ≡ verdict_number (verdict_of (run_from envelope.now program.now tables.now marks.old))) × (marks.new ≡ value_of marks.old (run_from envelope.now program.now tables.now marks.old)) }
{
    of_taken(&run(envelope, program, tables, marks))
}

fn answer(envelope: &[u8], tables: &[u32], out: &mut [u32]) -> Result<usize, Refusal>
    ensures { (result ≡ written_of (answer_from envelope.now tables.now (length out.old))) × (out.new ≡ written_in out.old (answer_from envelope.now tables.now (length out.old))) }
{
    let envelope = envelopes::reading::read_envelope(envelope)?;
    answerer::answer::answer(envelope, tables, out)
}

// 5: the answer on tables, at the front of out. Taken, the words written.
pub fn legestran_answer(envelope: &[u8], tables: &[u32], out: &mut [u32]) -> u64
    ensures { (result ≡ written_number (written_of (answer_from envelope.now tables.now (length out.old)))) × (out.new ≡ written_in out.old (answer_from envelope.now tables.now (length out.old))) }
{
    answer_of(answer(envelope, tables, out))
}
