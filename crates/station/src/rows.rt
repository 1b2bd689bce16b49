// The rows of a row message: the kept columns of a relation's kept rows, each row read once.
ghost use Rattle.std.specs.Prelude.{◌≡◌, true, map, ◌+◌, ◌*◌, ◌≤◌, ◌<◌, length};
ghost use Rattle.std.proofs.lemmas.List.Edits.{sets};
ghost use Rattle.ground.specs.Lists.{filter, below, each};
ghost use Rattle.fields.specs.Puts.{fitted, written_of, written_in};
ghost use Rattle.contents.specs.Parts.{relation_count};
ghost use Rattle.tables.specs.Offsets.{row_count};
ghost use Rattle.tables.specs.Shape.{shaped};
ghost use Rattle.tables.specs.Rows.{word_over, kept_over};
ghost use Rattle.ends.specs.Messages.{front_length, row_message};
ghost use Rattle.station.specs.Making.{sent_rows};

use contents::envelope::Envelope;
use ground::refusals::{Reason, Refusal};
use tables::offsets::Extent;

// How many rows are kept.
fn count_kept(marks: &[u8], extent: Extent) -> usize
    ensures { result ≡ length (filter (kept_over extent marks.now) (below extent.rows)) }
{
    let mut n: usize = 0;
    for row in 0..extent.rows {
        if tables::rows::is_kept(marks, extent, row) {
            n += 1;
        }
    }
    n
}

// One row's words in some columns, from a place on.
fn put_row(
    tables: &[u32],
    extent: Extent,
    row: usize,
    columns: &[u8],
    at: usize,
    message: &mut [u32],
)
    requires { at + length columns.now ≤ length message.old }
    ensures { message.new ≡ sets message.old at (map (word_over extent tables.now row) columns.now) }
{
    for (i, column) in columns.iter().enumerate() {
        message[at + i] = tables::rows::word_at(tables, extent, row, *column);
    }
}

// The words of every kept row, behind the three in front.
fn put_rows(tables: &[u32], marks: &[u8], extent: Extent, columns: &[u8], message: &mut [u32])
    requires { front_length + length (filter (kept_over extent marks.now) (below extent.rows)) * length columns.now ≤ length message.old }
    ensures { message.new ≡ sets message.old front_length (each (λ i. map (word_over extent tables.now i) columns.now) (filter (kept_over extent marks.now) (below extent.rows))) }
{
    let mut at: usize = ends::messages::FRONT;
    for row in 0..extent.rows {
        let kept = tables::rows::is_kept(marks, extent, row);
        if kept {
            put_row(tables, extent, row, columns, at, message);
            at += columns.len();
        }
    }
}

// The row message of a relation, or 11.
pub(crate) fn put_row_message(
    envelope: Envelope,
    run: u32,
    relation: u8,
    tables: &[u32],
    marks: &[u8],
    message: &mut [u32],
) -> Result<usize, Refusal>
    requires { (shaped envelope tables.now ≡ true) × (row_count envelope tables.now ≤ length marks.now) × (relation < relation_count envelope) }
    ensures { (result ≡ written_of (fitted (length message.old) (row_message run relation (sent_rows envelope tables.now marks.now relation)))) × (message.new ≡ written_in message.old (fitted (length message.old) (row_message run relation (sent_rows envelope tables.now marks.now relation)))) }
{
    let extent = tables::offsets::extent_of(envelope, tables, relation);
    let kept = contents::kept::kept_columns(envelope, relation);
    let columns = kept.in_use();
    let count = count_kept(marks, extent);
    let length = ends::messages::FRONT + count * columns.len();
    if message.len() < length {
        return Err(Reason::TooShort.at(0));
    }
    ends::messages::put_front(
        message,
        run,
        ends::messages::ROWS_FROM + relation as u32,
        count as u32,
    );
    put_rows(tables, marks, extent, columns, message);
    Ok(length)
}
