// Drops: of the steps whose left relation is at the site, dearest first and earlier first on a tie, each without which the
// total is strictly lower.
ghost use Rattle.std.specs.Prelude.{◌≡◌};
ghost use Rattle.ground.specs.Lists.{below};
ghost use Rattle.papers.specs.Programs.{no_step, steps_of, program_with, Acceptable};
ghost use Rattle.estimates.specs.Profile.{local_profile};
ghost use Rattle.estimates.specs.Kind.{total};
ghost use Rattle.planner.specs.Choice.{steps_at, dropped};
ghost use Rattle.estimates.specs.Estimate.{kind_of};
ghost use Rattle.planner.specs.Plan.{drops_at};
ghost use Rattle.estimates.specs.Ready.{Ready};

use contents::envelope::Envelope;
use estimates::costs::Costs;
use estimates::profiles::Profile;
use papers::programs::Program;

// The program without those that are dropped, in the order in which the numbers stand; its total so far is given.
fn dropped(
    costs: Costs,
    envelope: Envelope,
    local: Profile,
    program: Program,
    order: &[u8],
    given: u64,
) -> Program
    requires { Ready costs envelope local × Acceptable envelope program × (given ≡ total (kind_of costs envelope) (local_profile envelope) program.site (steps_of program)) }
    ensures { result ≡ program_with program.site (steps_at no_step (steps_of program) (dropped (kind_of costs envelope) (local_profile envelope) program.site (steps_at no_step (steps_of program)) order.now (below program.count))) }
{
    let steps = ground::used::first(&program.steps, program.count);
    let mut kept = crate::numbers::all_numbers(program.count);
    let mut total = given;
    for number in order {
        let fewer = crate::numbers::but_for(kept.listed(), *number);
        let shorter = crate::numbers::steps_at(program.site, steps, fewer.listed());
        let anew = estimates::estimator::estimated(costs, envelope, local, shorter);
        if anew.total < total {
            kept = fewer;
            total = anew.total;
        }
    }
    crate::numbers::steps_at(program.site, steps, kept.listed())
}

// What is left of a program at its site. Costs for the order are those before any drop.
pub(crate) fn drops(costs: Costs, envelope: Envelope, local: Profile, program: Program) -> Program
    requires { Ready costs envelope local × Acceptable envelope program }
    ensures { result ≡ program_with program.site (drops_at costs envelope program.site (steps_of program)) }
{
    let steps = ground::used::first(&program.steps, program.count);
    let before = estimates::estimator::estimated(costs, envelope, local, program);
    let there = crate::numbers::numbers_at(envelope, program.site, steps);
    let order = crate::order::dearest_first(&before.lines, there);
    dropped(
        costs,
        envelope,
        local,
        program,
        order.listed(),
        before.total,
    )
}
