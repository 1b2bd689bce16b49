// Whether tables are of an envelope's shape and within the sizes; and the refusals that calls on tables and marks begin with.
ghost use Rattle.std.specs.Prelude.{◌≡◌};
ghost use Rattle.ground.specs.Refusing.{judgement};
ghost use Rattle.tables.specs.Shape.{shaped, marks_tests, column_tests};

use contents::envelope::Envelope;
use entries::places::Place;
use ground::refusals::{Reason, Refusal};

pub fn is_shaped(envelope: Envelope, tables: &[u32]) -> bool
    ensures { result ≡ shaped envelope tables.now }
{
    let n = ground::used::in_use(8, envelope.relation_count);
    if tables.len() < n || 16384 < tables.len() {
        return false;
    }
    let end = crate::offsets::extent_of(envelope, tables, n as u8);
    if end.word != tables.len() {
        return false;
    }
    tables[..n].iter().all(|count| *count <= 4096)
}

// 10, 11: tables of the envelope's shape, and so many marks that each row has one.
pub fn judge_marks(envelope: Envelope, tables: &[u32], n: usize) -> Result<(), Refusal>
    ensures { result ≡ judgement (marks_tests envelope tables.now n) }
{
    if !is_shaped(envelope, tables) {
        return Err(Reason::WrongShape.at(0));
    }
    if n < crate::offsets::row_count(envelope, tables) {
        return Err(Reason::TooShort.at(0));
    }
    Ok(())
}

// 10, 11, 14: these, and a column of the envelope.
pub fn judge_column(
    envelope: Envelope,
    place: Place,
    tables: &[u32],
    n: usize,
) -> Result<(), Refusal>
    ensures { result ≡ judgement (column_tests envelope place tables.now n) }
{
    judge_marks(envelope, tables, n)?;
    if !paths::steps::is_place(envelope, place) {
        return Err(Reason::NotOurs.at(0));
    }
    Ok(())
}
