// The estimator: what each step of a program brings and costs, and the program in all.
ghost use Rattle.std.specs.Prelude.{◌≡◌};
ghost use Rattle.ground.specs.Outcome.{taken_of};
ghost use Rattle.envelopes.specs.Rules.{Within, tidy};
ghost use Rattle.papers.specs.Programs.{steps_of, Acceptable};
ghost use Rattle.papers.specs.Checks.{papers_of};
ghost use Rattle.estimates.specs.Profile.{benefit};
ghost use Rattle.estimates.specs.Costs.{plain_costs, step_cost};
ghost use Rattle.estimates.specs.Estimate.{line, estimated, estimate_of};
ghost use Rattle.estimates.specs.Ready.{Ready, Bounded, Shrinks};

use crate::costs::Costs;
use crate::lines::{Estimate, Line};
use crate::profiles::Profile;
use contents::envelope::Envelope;
use ground::refusals::Refusal;
use papers::programs::Program;
use paths::steps::Step;

// A step with its benefit and its cost.
pub fn line_of(costs: Costs, envelope: Envelope, profile: Profile, step: Step) -> Line
    requires { Bounded costs profile × Shrinks envelope profile step }
    ensures { result ≡ line step (benefit envelope profile step) (step_cost costs envelope profile step) }
{
    let benefit = crate::costs::benefit(envelope, profile, step);
    let cost = crate::costs::step_cost(costs, envelope, profile, step);
    Line {
        step: step,
        benefit: benefit,
        cost: cost,
    }
}

// A program that was accepted, with what it is expected to cost at its site.
pub fn estimated(costs: Costs, envelope: Envelope, local: Profile, program: Program) -> Estimate
    requires { Ready costs envelope local × Acceptable envelope program }
    ensures { result ≡ estimated costs envelope (steps_of program) program.site }
{
    let steps = ground::used::first(&program.steps, program.count);
    let mut lines = [crate::lines::no_line(); 156];
    let mut now = local;
    let mut spent: u64 = 0;
    for (i, step) in steps.iter().enumerate() {
        let line = line_of(costs, envelope, now, *step);
        lines[i] = line;
        spent += line.cost;
        now = now.after_step(envelope, *step);
    }
    let assembly = crate::costs::assembly_at(costs, envelope, now, program.site);
    Estimate {
        count: program.count,
        lines: lines,
        assembly: assembly,
        total: spent + assembly,
    }
}

// An envelope and a program that were taken.
fn estimated_plainly(envelope: Envelope, program: Program) -> Estimate
    requires { Within envelope × (tidy envelope ≡ envelope) × Acceptable envelope program }
    ensures { result ≡ estimated plain_costs envelope (steps_of program) program.site }
{
    let costs = crate::costs::plain_costs();
    let local = crate::locals::local_profile(envelope);
    estimated(costs, envelope, local, program)
}

// What a program is expected to cost: the envelope, then the program, is checked first.
pub fn estimate(envelope: Envelope, program: Program) -> Result<Estimate, Refusal>
    ensures { result ≡ taken_of (estimate_of (papers_of envelope program)) }
{
    let papers = papers::checks::check_papers(envelope, program)?;
    Ok(estimated_plainly(papers.envelope, papers.program))
}
