// A column named by its relation: what clauses, targets and steps speak of; what column it is, and how many a relation has.
ghost use Rattle.std.specs.Prelude.{◌≡◌, slice_index_or};
ghost use Rattle.ground.specs.Outcome.{read_of};
ghost use Rattle.entries.specs.Relations.{past_relation, column_count};
ghost use Rattle.entries.specs.Places.{no_place, same_place, named_column, place_at, place_bytes};

use crate::relations::{Column, Relation};
use fields::numbers::Width;
use fields::puts::Part;
use ground::refusals::Refusal;

#[derive(Clone, Copy, PartialEq, Eq)]
pub struct Place {
    pub relation: u8,
    pub column: u8,
}

impl Part for Place {
    ghost bytes = { place_bytes };

    ghost most = { 2 };

    fn put(self, out: &mut [u8], at: usize) -> usize {
        let next = self.relation.put(out, at);
        self.column.put(out, next)
    }
}

// Whether two places are one: the same column of the same relation.
pub fn same_place(a: Place, b: Place) -> bool
    ensures { result ≡ same_place a b }
{
    a == b
}

// What stands in an array behind the last one; contracts name it.
pub fn no_place() -> Place
    ensures { result ≡ no_place }
{
    Place {
        relation: 0,
        column: 0,
    }
}

// The column that a place names; the empty one where there is no such relation, or no such place in its array.
pub fn named_column(relations: &[Relation], place: Place) -> Column
    ensures { result ≡ named_column relations.now place }
{
    match relations.get(place.relation as usize) {
        Some(relation) => crate::relations::column_at(&relation.columns, place.column as usize),
        None => crate::relations::no_column(),
    }
}

// How many columns a relation has; past the relations there are none.
pub fn column_count(relations: &[Relation], i: usize) -> u32
    ensures { result ≡ column_count (slice_index_or relations.now i past_relation) }
{
    match relations.get(i) {
        Some(relation) => (relation.column_count as u32).min(8),
        None => 0,
    }
}

// A relation of the count, and a column of that relation. The count stands beside the relations, since an envelope that was not checked
// may count more than it has: then the column is what names nothing.
pub fn read_place(
    s: &[u8],
    at: usize,
    count: u8,
    relations: &[Relation],
) -> Result<(Place, usize), Refusal>
    ensures { result ≡ read_of (place_at count relations.now s.now at) }
{
    let (relation, next) = fields::numbers::number_below(s, at, Width::One, count as u32)?;
    let columns = column_count(relations, relation as usize);
    let (column, end) = fields::numbers::number_below(s, next, Width::One, columns)?;
    let place = Place {
        relation: relation as u8,
        column: column as u8,
    };
    Ok((place, end))
}
