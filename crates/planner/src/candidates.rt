// The steps that the planner chooses from: the legal steps of an envelope, by left relation, left column, right relation,
// right column, of which one after the other is taken out.
ghost use Rattle.std.specs.Prelude.{◌≡◌, not, ◌/◌, ◌%◌, ◌≤◌, ◌<◌, length};
ghost use Rattle.ground.specs.Lists.{filter};
ghost use Rattle.entries.specs.Places.{place};
ghost use Rattle.envelopes.specs.Rules.{Within};
ghost use Rattle.paths.specs.Steps.{step as Steps-step, legal_steps};
ghost use Rattle.paths.specs.declared.steps.Step.{Step};
ghost use Rattle.estimates.specs.Estimate.{same_step};
ghost use Rattle.papers.specs.Programs.{no_step};
ghost use Rattle.planner.specs.Few.{shown_few};

use crate::few::Few;
use contents::envelope::Envelope;
use entries::places::Place;
use paths::steps::Step;

// Column number k of the 64 that an envelope can have.
fn place_at(k: usize) -> Place
    requires { k < 64 }
    ensures { result ≡ place (k / 8) (k % 8) }
{
    Place {
        relation: (k / 8) as u8,
        column: (k % 8) as u8,
    }
}

// Step number k of the 4,096 that two such columns make, in the order of ties.
fn candidate_at(k: usize) -> Step
    requires { k < 4096 }
    ensures { result ≡ Steps-step (place (k / 64 / 8) (k / 64 % 8)) (place (k % 64 / 8) (k % 64 % 8)) }
{
    Step {
        left: place_at(k / 64),
        right: place_at(k % 64),
    }
}

pub(crate) fn legal_steps(envelope: Envelope) -> Few<Step>
    requires { Within envelope }
    ensures { result ≡ shown_few no_step (legal_steps envelope) }
{
    let labels = paths::labels::labels_of(envelope);
    let mut steps = Few::empty(papers::programs::no_step());
    for k in 0..4096 {
        let step = candidate_at(k);
        if paths::steps::legal_by(envelope, labels, step) {
            steps.push(step);
        }
    }
    steps
}

// The steps other than one.
#[tactic(auto, unfolding(estimates::specs::Estimate::same_step, entries::specs::Places::same_place))]
pub(crate) fn without(steps: &[Step], used: Step) -> Few<Step>
    requires { length steps.now ≤ 156 }
    ensures { result ≡ shown_few no_step (filter (λ (t : Step). not (same_step used t)) steps.now) }
{
    Few::sifted(steps, papers::programs::no_step(), |step| used != *step)
}
