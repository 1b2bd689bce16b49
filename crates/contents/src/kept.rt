// Kept columns: those in a clause or target. What is gone through is what is in use, so that any struct has an answer.
ghost use Rattle.std.specs.Prelude.{◌≡◌, take};
ghost use Rattle.ground.specs.Lists.{any};
ghost use Rattle.entries.specs.Places.{same_place};
ghost use Rattle.contents.specs.Kept.{names, kept, kept_columns, shown_columns, lowest_bare};

use crate::envelope::Envelope;
use entries::clauses::{Clause, ClauseKind};
use entries::places::{Place, same_place};

// The numbers of some columns, rising: count of them, and 0 behind them. Contracts of the crates above speak of both fields.
#[derive(Clone, Copy)]
pub struct Columns {
    pub count: u8,
    pub numbers: [u8; 8],
}

impl Columns {
    // The numbers alone.
    pub fn in_use(&self) -> &[u8]
        ensures { result.now ≡ take self.now.count self.now.numbers }
    {
        ground::used::first(&self.numbers, self.count)
    }
}

#[tactic(auto, unfolding(crate::specs::Kept::names, entries::specs::Places::same_place))]
fn kind_names(kind: ClauseKind, place: Place) -> bool
    ensures { result ≡ names kind place }
{
    match kind {
        ClauseKind::Selection { place: a, value: _ } => same_place(a, place),
        ClauseKind::Join { left, right } => same_place(left, place) || same_place(right, place),
    }
}

fn clauses_name(clauses: &[Clause], place: Place) -> bool
    ensures { result ≡ any (λ (c : Clause). names c.kind place) clauses.now }
{
    clauses.iter().any(|clause| kind_names(clause.kind, place))
}

#[tactic(auto, unfolding(entries::specs::Places::same_place))]
fn targets_name(targets: &[Place], place: Place) -> bool
    ensures { result ≡ any (λ (t : Place). same_place t place) targets.now }
{
    targets.iter().any(|target| same_place(*target, place))
}

// Whether a column is kept: it stands in a clause or target.
#[tactic(auto, unfolding(crate::specs::Kept::kept))]
pub(crate) fn is_kept_column(envelope: &Envelope, place: Place) -> bool
    ensures { result ≡ kept envelope.now place }
{
    clauses_name(envelope.clauses_in_use(), place) || targets_name(envelope.targets_in_use(), place)
}

// The kept columns of a relation.
pub fn kept_columns(envelope: Envelope, relation: u8) -> Columns
    ensures { result ≡ shown_columns (kept_columns envelope relation) }
{
    let end = crate::parts::columns_in(envelope, relation) as u8;
    let mut numbers = [0u8; 8];
    let mut count: u8 = 0;
    for column in 0..end {
        if is_kept_column(&envelope, Place { relation, column }) {
            numbers[count as usize] = column;
            count += 1;
        }
    }
    Columns { count, numbers }
}

// The lowest relation with no kept column, where there is one.
pub fn lowest_bare(envelope: Envelope) -> Option<u8>
    ensures { result ≡ lowest_bare envelope }
{
    let end = ground::used::in_use(8, envelope.relation_count) as u8;
    for relation in 0..end {
        if kept_columns(envelope, relation).count == 0 {
            return Some(relation);
        }
    }
    None
}
