// What the envelope says of a column and of the columns of a relation; whatever struct comes in has an answer.
ghost use Rattle.std.specs.Prelude.{◌≡◌};
ghost use Rattle.estimates.specs.Columns.{column_of, domain_size, width_of};

use contents::envelope::Envelope;
use entries::places::Place;
use entries::relations::Column;

#[tactic(auto, unfolding(crate::specs::Columns::column_of))]
pub(crate) fn column_of(envelope: &Envelope, place: Place) -> Column
    ensures { result ≡ column_of envelope.now place }
{
    entries::places::named_column(envelope.relations_in_use(), place)
}

#[tactic(auto, unfolding(crate::specs::Columns::domain_size))]
pub(crate) fn domain_size(envelope: &Envelope, place: Place) -> u32
    ensures { result ≡ domain_size envelope.now place }
{
    let column = column_of(envelope, place);
    envelope
        .sizes_in_use()
        .get(column.domain as usize)
        .copied()
        .unwrap_or(0)
}

// The width of a relation: of its kept columns.
pub(crate) fn width_of(envelope: Envelope, relation: u8) -> u64
    ensures { result ≡ width_of envelope relation }
{
    let kept = contents::kept::kept_columns(envelope, relation);
    let numbers = kept.in_use();
    let mut total: u64 = 0;
    for number in numbers {
        let place = Place {
            relation: relation,
            column: *number,
        };
        let column = column_of(&envelope, place);
        total += column.width as u64;
    }
    total
}
