// The profile behind local operations: every implied selection, in order of relation, column, value.
ghost use Rattle.std.specs.Prelude.{◌≡◌};
ghost use Rattle.envelopes.specs.Rules.{Within, tidy};
ghost use Rattle.paths.specs.Labels.{by_labels};
ghost use Rattle.paths.specs.Implied.{selections_by};
ghost use Rattle.estimates.specs.Ready.{Low};
ghost use Rattle.estimates.specs.Profile.{after_selections, local_profile};

use crate::profiles::Profile;
use contents::envelope::Envelope;
use entries::places::Place;
use paths::labels::Labels;

// The implied selections of a relation, by the labels of an envelope.
fn after_selections(envelope: Envelope, labels: Labels, profile: Profile, relation: u8) -> Profile
    requires { Within envelope × Low profile.rows × Low profile.counts }
    ensures { result ≡ after_selections profile relation (selections_by (by_labels labels.of envelope) envelope relation) }
{
    let selections = paths::implied::selections_by(envelope, labels, relation);
    let all = ground::used::first(&selections.all, selections.count);
    let mut now = profile;
    for selection in all {
        let place = Place {
            relation: relation,
            column: selection.column,
        };
        now = now.after_selection(place);
    }
    now
}

// For an envelope that was taken.
pub fn local_profile(envelope: Envelope) -> Profile
    requires { Within envelope × (tidy envelope ≡ envelope) }
    ensures { result ≡ local_profile envelope }
{
    let labels = paths::labels::labels_of(envelope);
    let end = ground::used::in_use(8, envelope.relation_count) as u8;
    let mut now = crate::profiles::given(envelope);
    for relation in 0..end {
        now = after_selections(envelope, labels, now, relation);
    }
    now
}
