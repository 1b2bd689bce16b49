// A step R<A=B]S of a program: left is R.A, right is S.B.
ghost use Rattle.std.specs.Prelude.{◌≡◌};
ghost use Rattle.envelopes.specs.Envelope.{check_envelope};
ghost use Rattle.paths.specs.Labels.{by_labels};
ghost use Rattle.paths.specs.Steps.{is_place, legal_by, legality_of};

use crate::labels::Labels;
use contents::envelope::Envelope;
use entries::places::Place;
use ground::refusals::Refusal;

#[derive(Clone, Copy, PartialEq, Eq)]
pub struct Step {
    pub left: Place,
    pub right: Place,
}

// Whether a column named by its relation is one of the envelope.
#[tactic(auto, unfolding(crate::specs::Steps::is_place))]
pub fn is_place(envelope: Envelope, place: Place) -> bool
    ensures { result ≡ is_place envelope place }
{
    (place.relation as usize) < ground::used::in_use(8, envelope.relation_count)
        && (place.column as u32) < contents::parts::columns_in(envelope, place.relation)
}

// Whether a step is legal by the labels of an envelope that was taken.
#[tactic(auto, unfolding(crate::specs::Steps::legal_by))]
pub fn legal_by(envelope: Envelope, labels: Labels, step: Step) -> bool
    ensures { result ≡ legal_by (by_labels labels.of envelope) envelope step }
{
    let Step { left, right } = step;
    is_place(envelope, left)
        && is_place(envelope, right)
        && left.relation != right.relation
        && crate::labels::columns_meet(labels, left, right)
}

// Whether a step is legal for an envelope that is a struct, which is checked first.
pub fn is_legal(envelope: Envelope, step: Step) -> Result<bool, Refusal>
    ensures { result ≡ legality_of (check_envelope envelope) step }
{
    let taken = envelopes::reading::check_envelope(envelope)?;
    let labels = crate::labels::labels_of(taken);
    Ok(legal_by(taken, labels, step))
}
