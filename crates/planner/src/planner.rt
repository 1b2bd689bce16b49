// The planner: the greedy program at its cheapest site, drops, and the fallback to no steps.
ghost use Rattle.std.specs.Prelude.{◌≡◌};
ghost use Rattle.ground.specs.Outcome.{taken_of};
ghost use Rattle.envelopes.specs.Rules.{Within, tidy};
ghost use Rattle.envelopes.specs.Envelope.{read_envelope, check_envelope};
ghost use Rattle.papers.specs.Programs.{program_with, steps_of, Acceptable};
ghost use Rattle.estimates.specs.Costs.{plain_costs, assembly_at};
ghost use Rattle.estimates.specs.Estimate.{estimated};
ghost use Rattle.planner.specs.Plan.{site_for, after_drops, planned, plan_for, told, plan_of};
ghost use Rattle.estimates.specs.Ready.{Ready};

use crate::plans::Plan;
use contents::envelope::Envelope;
use estimates::costs::Costs;
use estimates::profiles::Profile;
use ground::refusals::Refusal;
use papers::programs::Program;

// The greedy program at its cheapest site, after drops.
fn after_drops(costs: Costs, envelope: Envelope, local: Profile) -> Program
    requires { Ready costs envelope local }
    ensures { result ≡ program_with (after_drops costs envelope).site (after_drops costs envelope).steps }
{
    let greedy = crate::choice::greedy_steps(costs, envelope, local);
    let behind = greedy.profile;
    let site = crate::sites::site_for(costs, envelope, behind);
    let program = crate::numbers::program_of(site, greedy.steps);
    crate::drops::drops(costs, envelope, local, program)
}

// No steps and the site at which local operations alone are cheapest, unless the total of the program is below theirs.
#[inline(never)]
fn planned(costs: Costs, envelope: Envelope, local: Profile, home: u8, alone: u64) -> Program
    requires { Ready costs envelope local × (home ≡ site_for costs envelope local) × (alone ≡ assembly_at costs envelope local home) }
    ensures { result ≡ program_with (planned costs envelope).site (planned costs envelope).steps }
{
    let program = after_drops(costs, envelope, local);
    let estimate = estimates::estimator::estimated(costs, envelope, local, program);
    if estimate.total < alone {
        return program;
    }
    Program {
        site: home,
        count: 0,
        steps: [papers::programs::no_step(); 156],
    }
}

// A program that was planned, with what each step brings and costs. Not inlined, nor is `planned`: the lines of the one and the tries of the other
// are on the stack one after the other.
#[inline(never)]
fn told(costs: Costs, envelope: Envelope, local: Profile, program: Program, alone: u64) -> Plan
    requires { Ready costs envelope local × Acceptable envelope program }
    ensures { result ≡ told (estimated costs envelope (steps_of program) program.site) program.site alone }
{
    let estimate = estimates::estimator::estimated(costs, envelope, local, program);
    let lines = estimate.lines;
    Plan {
        site: program.site,
        count: estimate.count,
        lines: lines,
        assembly: estimate.assembly,
        total: estimate.total,
        local: alone,
    }
}

fn plan_for(costs: Costs, envelope: Envelope, local: Profile) -> Plan
    requires { Ready costs envelope local }
    ensures { result ≡ plan_for costs envelope }
{
    let home = crate::sites::site_for(costs, envelope, local);
    let alone = estimates::costs::assembly_at(costs, envelope, local, home);
    let program = planned(costs, envelope, local, home, alone);
    told(costs, envelope, local, program, alone)
}

// An envelope that was taken.
fn plan_plainly(envelope: Envelope) -> Plan
    requires { Within envelope × (tidy envelope ≡ envelope) }
    ensures { result ≡ plan_for plain_costs envelope }
{
    let costs = estimates::costs::plain_costs();
    let local = estimates::locals::local_profile(envelope);
    plan_for(costs, envelope, local)
}

// The program for an envelope, which is checked first.
pub fn plan(envelope: Envelope) -> Result<Plan, Refusal>
    ensures { result ≡ taken_of (plan_of (check_envelope envelope)) }
{
    let checked = envelopes::reading::check_envelope(envelope)?;
    Ok(plan_plainly(checked))
}

// The same from the envelope's bytes: a `?` and a call, as above. Not inlined, so that what planning needs of the stack is free again
// when its caller goes on.
#[inline(never)]
pub fn plan_paper(s: &[u8]) -> Result<Plan, Refusal>
    ensures { result ≡ taken_of (plan_of (read_envelope s.now)) }
{
    let taken = envelopes::reading::read_envelope(s)?;
    Ok(plan_plainly(taken))
}
