// The steps of a relation in program order: how many there are before a step, and which is the first that is missing.
ghost use Rattle.std.specs.Prelude.{◌≡◌, Some, None, length, slice_index, nat_eq, nat_lt, count_by};
ghost use Rattle.ground.specs.Tests.{pick};
ghost use Rattle.papers.specs.Programs.{steps_of};
ghost use Rattle.ends.specs.Reducing.{step_count, step_of, reducing, steps_before, missing_of};
ghost use Rattle.ends.specs.Searching.{sought_next};

use papers::programs::Program;
use paths::steps::Step;

// The steps that a program has.
#[tactic(auto, unfolding(papers::specs::Programs::steps_of))]
fn steps_of(program: &Program) -> &[Step]
    ensures { result.now ≡ steps_of program.now }
{
    ground::used::first(&program.steps, program.count)
}

// A step by its number; an empty one where there is none.
#[tactic(auto, unfolding(crate::specs::Reducing::step_of))]
pub fn step_of(program: Program, n: usize) -> Step
    ensures { result ≡ step_of program n }
{
    steps_of(&program)
        .get(n)
        .copied()
        .unwrap_or(papers::programs::no_step())
}

// How many steps a program has.
#[tactic(auto, unfolding(papers::specs::Programs::steps_of))]
pub fn step_count(program: Program) -> u8
    ensures { result ≡ step_count program }
{
    steps_of(&program).len() as u8
}

// How many of some steps reduce a relation.
fn count_of(steps: &[Step], relation: u8) -> usize
    ensures { result ≡ count_by (λ (s : Step). nat_eq s.left.relation relation) steps.now }
{
    steps
        .iter()
        .filter(|step| step.left.relation == relation)
        .count()
}

// How many of the first n steps reduce a relation.
pub fn steps_before(program: Program, relation: u8, n: usize) -> u32
    ensures { result ≡ steps_before program relation n }
{
    let steps = steps_of(&program);
    count_of(&steps[..n.min(steps.len())], relation) as u32
}

// The lent steps are looked through for the next one of a relation behind so many of its steps, of those below n: its number.
fn next_step(steps: &[Step], relation: u8, skip: u32, n: usize) -> Option<usize>
    ensures { (result ≡ pick (nat_lt skip (length (reducing steps.now relation n))) (Some (slice_index (reducing steps.now relation n) skip)) None) × (result ≡ sought_next steps.now relation skip n) }
{
    let mut left = skip;
    for i in 0..n.min(steps.len()) {
        if steps[i].left.relation == relation {
            if left == 0 {
                return Some(i);
            }
            left -= 1;
        }
    }
    None
}

// With so many steps of a relation applied, the first missing one of those below n.
#[tactic(auto, unfolding(crate::specs::Reducing::missing_of, crate::specs::Reducing::is_missing, crate::specs::Reducing::first_missing, crate::specs::Reducing::steps_before))]
pub fn missing_of(program: Program, relation: u8, applied: u32, n: usize) -> Option<usize>
    ensures { result ≡ missing_of program relation applied n }
{
    next_step(steps_of(&program), relation, applied, n)
}
