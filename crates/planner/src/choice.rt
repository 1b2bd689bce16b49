// The greedy program: of the unused legal steps the first of greatest benefit minus cost, again and again.
ghost use Rattle.std.specs.Prelude.{◌≡◌, ℕ, ◌<◌, length, slice_index_or};
ghost use Rattle.ground.specs.Choice.{first_of_greatest};
ghost use Rattle.papers.specs.Programs.{no_step};
ghost use Rattle.estimates.specs.Profile.{local_profile};
ghost use Rattle.planner.specs.Choice.{gain};
ghost use Rattle.estimates.specs.Kind.{after_all};
ghost use Rattle.estimates.specs.Estimate.{kind_of};
ghost use Rattle.planner.specs.Plan.{greedy_steps};
ghost use Rattle.estimates.specs.Ready.{Ready};
ghost use Rattle.planner.specs.Few.{shown_few, shown_choice};
ghost use Rattle.estimates.specs.Ready.{Bounded, Shrinks};

use crate::few::Few;
use contents::envelope::Envelope;
use estimates::costs::Costs;
use estimates::profiles::Profile;
use paths::steps::Step;

// The greedy program and the profile that it leaves.
#[derive(Clone, Copy)]
pub(crate) struct Greedy {
    pub steps: Few<Step>,
    pub profile: Profile,
}

// Benefit minus cost; 0 where the benefit is not above the cost.
fn gain(costs: Costs, envelope: Envelope, profile: Profile, step: Step) -> u64
    requires { Bounded costs profile × Shrinks envelope profile step }
    ensures { result ≡ gain (kind_of costs envelope) profile step }
{
    let line = estimates::estimator::line_of(costs, envelope, profile, step);
    line.benefit.saturating_sub(line.cost)
}

// Of some steps the first of greatest gain, where one gains.
fn first_of_greatest(
    costs: Costs,
    envelope: Envelope,
    profile: Profile,
    steps: &[Step],
) -> Option<Step>
    requires { Bounded costs profile × ((i : ℕ) → i < length steps.now → Shrinks envelope profile (slice_index_or steps.now i no_step)) }
    ensures { result ≡ shown_choice (first_of_greatest (gain (kind_of costs envelope) profile) steps.now) }
{
    let mut best = None;
    let mut most: u64 = 0;
    for step in steps {
        let more = gain(costs, envelope, profile, *step);
        if most < more {
            best = Some(*step);
            most = more;
        }
    }
    best
}

// From the profile behind local operations on.
pub(crate) fn greedy_steps(costs: Costs, envelope: Envelope, local: Profile) -> Greedy
    requires { Ready costs envelope local }
    ensures { result ≡ record { steps = shown_few no_step (greedy_steps costs envelope); profile = after_all (kind_of costs envelope) (local_profile envelope) (greedy_steps costs envelope) } }
{
    let mut unused = crate::candidates::legal_steps(envelope);
    let mut now = local;
    let mut steps = Few::empty(papers::programs::no_step());
    while let Some(step) = first_of_greatest(costs, envelope, now, unused.listed()) {
        steps.push(step);
        unused = crate::candidates::without(unused.listed(), step);
        now = now.after_step(envelope, step);
    }
    Greedy {
        steps: steps,
        profile: now,
    }
}
