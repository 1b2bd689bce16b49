// The clauses of an envelope: each is either a selection or a join.
ghost use Rattle.std.specs.Prelude.{◌≡◌};
ghost use Rattle.ground.specs.Outcome.{read_of};
ghost use Rattle.entries.specs.Clauses.{
  no_clause,
  domain_of,
  selection_at,
  joined,
  join_at,
  clause_at,
  clause_bytes,
};

use crate::places::Place;
use crate::relations::Relation;
use fields::numbers::Width;
use fields::puts::Part;
use ground::refusals::{Reason, Refusal};

#[derive(Clone, Copy)]
pub enum ClauseKind {
    Selection { place: Place, value: u32 },
    Join { left: Place, right: Place },
}

#[derive(Clone, Copy)]
pub struct Clause {
    pub kind: ClauseKind,
}

impl Part for Clause {
    ghost bytes = { clause_bytes };

    ghost most = { 7 };

    fn put(self, out: &mut [u8], at: usize) -> usize {
        match self.kind {
            ClauseKind::Selection { place, value } => {
                let p = 1u8.put(out, at);
                let q = place.put(out, p);
                value.put(out, q)
            }
            ClauseKind::Join { left, right } => {
                let p = 2u8.put(out, at);
                let q = left.put(out, p);
                right.put(out, q)
            }
        }
    }
}

// What stands in an array behind the last one: of an enum with data no default is derived.
pub fn no_clause() -> Clause
    ensures { result ≡ no_clause }
{
    Clause {
        kind: ClauseKind::Selection {
            place: crate::places::no_place(),
            value: 0,
        },
    }
}

// The domain of a column; 0 where there is no such relation, or no such place in its array.
pub fn domain_of(relations: &[Relation], place: Place) -> u8
    ensures { result ≡ domain_of relations.now place }
{
    let column = crate::places::named_column(relations, place);
    column.domain
}

fn read_selection(
    s: &[u8],
    at: usize,
    count: u8,
    relations: &[Relation],
) -> Result<(Clause, usize), Refusal>
    ensures { result ≡ read_of (selection_at count relations.now s.now at) }
{
    let (place, p) = crate::places::read_place(s, at, count, relations)?;
    let (value, end) = fields::numbers::number_at(s, p, Width::Four)?;
    let kind = ClauseKind::Selection { place, value };
    Ok((Clause { kind }, end))
}

// Two columns that are in range: of two domains, one and the same, or joined.
fn join_of(
    relations: &[Relation],
    start: usize,
    left: Place,
    right: Place,
    end: usize,
) -> Result<(Clause, usize), Refusal>
    ensures { result ≡ read_of (joined relations.now start left right end) }
{
    if domain_of(relations, left) != domain_of(relations, right) {
        return Err(Reason::TwoDomains.at(start));
    }
    if crate::places::same_place(left, right) {
        return Err(Reason::SameColumn.at(start));
    }
    let kind = ClauseKind::Join { left, right };
    Ok((Clause { kind }, end))
}

fn read_join(
    s: &[u8],
    start: usize,
    at: usize,
    count: u8,
    relations: &[Relation],
) -> Result<(Clause, usize), Refusal>
    ensures { result ≡ read_of (join_at count relations.now s.now start at) }
{
    let (left, p) = crate::places::read_place(s, at, count, relations)?;
    let (right, end) = crate::places::read_place(s, p, count, relations)?;
    join_of(relations, start, left, right, end)
}

pub fn read_clause(
    s: &[u8],
    at: usize,
    count: u8,
    relations: &[Relation],
) -> Result<(Clause, usize), Refusal>
    ensures { result ≡ read_of (clause_at count relations.now s.now at) }
{
    let (kind, p) = fields::numbers::number_in(s, at, Width::One, 1, 2)?;
    if kind == 1 {
        read_selection(s, p, count, relations)
    } else {
        read_join(s, at, p, count, relations)
    }
}
