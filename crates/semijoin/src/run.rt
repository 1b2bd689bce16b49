// The one-place run: every check first, then local operations on all relations, then every step.
ghost use Rattle.std.specs.Prelude.{◌≡◌, true, ◌≤◌, length};
ghost use Rattle.ground.specs.Lists.{Every};
ghost use Rattle.ground.specs.Outcome.{verdict_of, value_of};
ghost use Rattle.envelopes.specs.Rules.{Within};
ghost use Rattle.paths.specs.Steps.{is_place, legal};
ghost use Rattle.papers.specs.Programs.{steps_of};
ghost use Rattle.tables.specs.Offsets.{row_count};
ghost use Rattle.tables.specs.Shape.{shaped};
ghost use Rattle.semijoin.specs.Run.{stepped, stepped_all, run_outcome, run_checked};

use contents::envelope::Envelope;
use ground::refusals::Refusal;
use papers::programs::Program;
use paths::steps::Step;

// A step in one place: the right column's values, then the left relation by those. A relation has at most 4,096 rows.
fn take_step(envelope: Envelope, step: Step, tables: &[u32], marks: &mut [u8])
    requires { (shaped envelope tables.now ≡ true) × (row_count envelope tables.now ≤ length marks.old) × (is_place envelope step.left ≡ true) × (is_place envelope step.right ≡ true) }
    ensures { marks.new ≡ stepped envelope tables.now step marks.old }
{
    let mut values = [0u32; 4096];
    let gathered = tables::values::values_into(envelope, step.right, tables, marks, 0, &mut values);
    if let Ok(n) = gathered {
        crate::marks::reduce(envelope, step.left, tables, &values[..n], marks);
    }
}

fn take_steps(envelope: Envelope, steps: &[Step], tables: &[u32], marks: &mut [u8])
    requires { (shaped envelope tables.now ≡ true) × (row_count envelope tables.now ≤ length marks.old) × Every (λ (s : Step). legal envelope s ≡ true) steps.now }
    ensures { marks.new ≡ stepped_all envelope tables.now steps.now marks.old }
{
    for step in steps {
        take_step(envelope, *step, tables, marks);
    }
}

// The run of a program on an envelope, both found good: 10, 11.
fn run_checked(
    envelope: Envelope,
    program: Program,
    tables: &[u32],
    marks: &mut [u8],
) -> Result<(), Refusal>
    requires { Within envelope × Every (λ (s : Step). legal envelope s ≡ true) (steps_of program) }
    ensures { (result ≡ verdict_of (run_checked envelope program tables.now marks.old)) × (marks.new ≡ value_of marks.old (run_checked envelope program tables.now marks.old)) }
{
    tables::shape::judge_marks(envelope, tables, marks.len())?;
    crate::local::open_all(envelope, tables, [true; 8], marks);
    let steps = ground::used::first(&program.steps, program.count);
    take_steps(envelope, steps, tables, marks);
    Ok(())
}

// The run, whatever comes in: the envelope, the program, then 10, 11.
pub fn run_in_one_place(
    envelope: Envelope,
    program: Program,
    tables: &[u32],
    marks: &mut [u8],
) -> Result<(), Refusal>
    ensures { (result ≡ verdict_of (run_outcome envelope program tables.now marks.old)) × (marks.new ≡ value_of marks.old (run_outcome envelope program tables.now marks.old)) }
{
    let papers = papers::checks::check_papers(envelope, program)?;
    run_checked(papers.envelope, papers.program, tables, marks)
}
