// A label for each column and each constant of an envelope: of one that was taken, equal labels exactly where a path joins two.
// Whatever struct comes in has labels: a number past the array has label 0.
ghost use Rattle.std.specs.Prelude.{◌≡◌, ◌+◌, ◌*◌, map, position, slice_index, nat_eq};
ghost use Rattle.ground.specs.Tests.{pick};
ghost use Rattle.entries.specs.declared.clauses.Clause.{Clause};
ghost use Rattle.contents.specs.declared.envelope.Envelope.{Envelope};
ghost use Rattle.paths.specs.Paths.{column, constant, edge_of};
ghost use Rattle.paths.specs.Labels.{selects, number_of, relabel, united, labelled, labels_of, by_labels};

use contents::envelope::Envelope;
use entries::clauses::{Clause, ClauseKind};
use entries::places::Place;
use entries::relations::Relation;

// 0 to 63 are columns, 8 to a relation; 64 to 75 the constants, by the first clause that selects each. Labels stand beside
// their envelope and not in one struct with it: what goes by labels holds of any, and most ask the envelope alone.
#[derive(Clone, Copy)]
pub struct Labels {
    pub of: [u8; 76],
}

#[tactic(auto, unfolding(crate::specs::Labels::selects))]
fn kind_selects(relations: &[Relation], kind: ClauseKind, domain: u8, value: u32) -> bool
    ensures { result ≡ selects relations.now domain value kind }
{
    match kind {
        ClauseKind::Join { left: _, right: _ } => false,
        ClauseKind::Selection { place, value: v } => {
            entries::clauses::domain_of(relations, place) == domain && v == value
        }
    }
}

fn column_number(place: Place) -> usize
    ensures { result ≡ 8 * place.relation + place.column }
{
    8 * (place.relation as usize) + place.column as usize
}

// The place of the first clause that selects a constant.
fn first_that_selects(
    relations: &[Relation],
    clauses: &[Clause],
    domain: u8,
    value: u32,
) -> Option<usize>
    ensures { result ≡ position (λ (c : Clause). selects relations.now domain value c.kind) clauses.now }
{
    clauses.iter().position(|clause| kind_selects(relations, clause.kind, domain, value))
}

fn constant_number(envelope: &Envelope, domain: u8, value: u32) -> usize
    ensures { result ≡ number_of envelope.now (constant domain value) }
{
    // lent whole, so that their number is known
    let _twelve: &[Clause] = &envelope.clauses;
    let clauses = envelope.clauses_in_use();
    let first = first_that_selects(&envelope.relations, clauses, domain, value);
    64 + first.unwrap_or(clauses.len())
}

fn label_at(labels: [u8; 76], i: usize) -> u8
    ensures { result ≡ slice_index labels i }
{
    labels.get(i).copied().unwrap_or(0)
}

fn renamed(label: u8, a: u8, b: u8) -> u8
    ensures { result ≡ pick (nat_eq label a) b label }
{
    if label == a { b } else { label }
}

// Every label a becomes b.
fn relabelled(labels: [u8; 76], a: u8, b: u8) -> [u8; 76]
    ensures { result ≡ relabel a b labels }
{
    let mut out = labels;
    // in place: what `map` makes is copied, at each clause again
    for i in 0..76 {
        out[i] = renamed(out[i], a, b);
    }
    out
}

// The labels of two numbers made one.
#[tactic(auto, unfolding(crate::specs::Labels::united))]
fn made_one(labels: [u8; 76], x: usize, y: usize) -> [u8; 76]
    ensures { result ≡ united x y labels }
{
    relabelled(labels, label_at(labels, x), label_at(labels, y))
}

// The labels of the two ends of a clause's edge made one.
#[tactic(auto, unfolding(crate::specs::Labels::number_of))]
fn along(envelope: &Envelope, labels: [u8; 76], kind: ClauseKind) -> [u8; 76]
    ensures { result ≡ united (number_of envelope.now (edge_of envelope.now.relations kind).from) (number_of envelope.now (edge_of envelope.now.relations kind).to) labels }
{
    match kind {
        ClauseKind::Selection { place, value } => {
            let domain = entries::clauses::domain_of(&envelope.relations, place);
            let number = constant_number(envelope, domain, value);
            made_one(labels, column_number(place), number)
        }
        ClauseKind::Join { left, right } => {
            made_one(labels, column_number(left), column_number(right))
        }
    }
}

// The labels by some clauses, edge by edge, the last first; at the start each number has its own.
fn by_clauses(envelope: &Envelope, clauses: &[Clause]) -> [u8; 76]
    ensures { result ≡ labelled envelope.now (map (λ (c : Clause). edge_of envelope.now.relations c.kind) clauses.now) }
{
    let mut labels: [u8; 76] = std::array::from_fn(|number| number as u8);
    // by number, since each turn is proved of what stands behind it
    for i in (0..clauses.len()).rev() {
        let more = along(envelope, labels, clauses[i].kind);
        labels = more;
    }
    labels
}

// The labels of the columns and constants of an envelope that was taken; of another struct what the same clauses make.
#[tactic(auto, unfolding(crate::specs::Labels::labels_of, crate::specs::Paths::edges))]
pub fn labels_of(envelope: Envelope) -> Labels
    ensures { result ≡ record { of = labels_of envelope } }
{
    Labels {
        of: by_clauses(&envelope, envelope.clauses_in_use()),
    }
}

// Whether two columns have one label. No envelope plays a part in it.
#[tactic(auto, unfolding(crate::specs::Labels::by_labels, crate::specs::Labels::number_of))]
pub(crate) fn columns_meet(labels: Labels, a: Place, b: Place) -> bool
    ensures { (e : Envelope) → result ≡ by_labels labels.of e (column a) (column b) }
{
    let of = labels.of;
    label_at(of, column_number(a)) == label_at(of, column_number(b))
}

// Whether a column and a constant have one label.
#[tactic(auto, unfolding(crate::specs::Labels::by_labels, crate::specs::Labels::number_of))]
pub(crate) fn constant_meets(
    envelope: &Envelope,
    labels: Labels,
    a: Place,
    domain: u8,
    value: u32,
) -> bool
    ensures { result ≡ by_labels labels.of envelope.now (column a) (constant domain value) }
{
    let of = labels.of;
    let number = constant_number(envelope, domain, value);
    label_at(of, column_number(a)) == label_at(of, number)
}
