// Where a relation's rows and marks lie. No other place adds up row counts.
ghost use Rattle.std.specs.Prelude.{◌≡◌};
ghost use Rattle.tables.specs.Offsets.{count_in, row_count, extent_of};

use contents::envelope::Envelope;

// A relation's columns and rows, its first word and its first mark.
#[derive(Clone, Copy)]
pub struct Extent {
    pub columns: usize,
    pub rows: usize,
    pub word: usize,
    pub mark: usize,
}

// The row count of a relation; 0 where there is no such relation or no such word.
pub fn count_in(envelope: Envelope, tables: &[u32], relation: u8) -> u32
    ensures { result ≡ count_in envelope tables.now relation }
{
    let i = relation as usize;
    if ground::used::in_use(8, envelope.relation_count) <= i {
        return 0;
    }
    tables.get(i).copied().unwrap_or(0)
}

// Where a relation lies; behind the last row where there is no such relation.
pub fn extent_of(envelope: Envelope, tables: &[u32], relation: u8) -> Extent
    ensures { result ≡ extent_of envelope tables.now relation }
{
    let mut word = ground::used::in_use(8, envelope.relation_count);
    let mut mark: usize = 0;
    for i in 0..relation {
        let columns = contents::parts::columns_in(envelope, i);
        let rows = count_in(envelope, tables, i);
        word += rows as usize * columns as usize;
        mark += rows as usize;
    }
    let columns = contents::parts::columns_in(envelope, relation);
    let rows = count_in(envelope, tables, relation);
    Extent {
        columns: columns as usize,
        rows: rows as usize,
        word,
        mark,
    }
}

// How many rows there are.
pub fn row_count(envelope: Envelope, tables: &[u32]) -> usize
    ensures { result ≡ row_count envelope tables.now }
{
    let n = ground::used::in_use(8, envelope.relation_count);
    let end = extent_of(envelope, tables, n as u8);
    end.mark
}
