// One row of a relation that lies in words and marks, for any extent: its word in a column, and whether it is kept.
ghost use Rattle.std.specs.Prelude.{◌≡◌};
ghost use Rattle.tables.specs.Rows.{word_over, kept_over};

use crate::offsets::Extent;

// The word of a row in a column: 0 where there is no such row or column, or the words end before it.
pub fn word_at(tables: &[u32], extent: Extent, row: usize, column: u8) -> u32
    ensures { result ≡ word_over extent tables.now row column }
{
    let column = column as usize;
    if extent.rows <= row || extent.columns <= column {
        return 0;
    }
    let Some(words) = tables.get(extent.word..) else {
        return 0;
    };
    // No slice goes as far as the greatest number, where a product or a sum that is too large ends.
    let at = row.saturating_mul(extent.columns).saturating_add(column);
    words.get(at).copied().unwrap_or(0)
}

// Whether a row is kept: not where there is no such row, or the marks end before it.
pub fn is_kept(marks: &[u8], extent: Extent, row: usize) -> bool
    ensures { result ≡ kept_over extent marks.now row }
{
    if extent.rows <= row {
        return false;
    }
    let Some(marks) = marks.get(extent.mark..) else {
        return false;
    };
    let mark = marks.get(row).copied().unwrap_or(0);
    mark != 0
}
