// The relations of an envelope, and the columns of each.
ghost use Rattle.std.specs.Prelude.{◌≡◌, ◌≤◌, min, slice_index, slice_index_or};
ghost use Rattle.ground.specs.Outcome.{read_of};
ghost use Rattle.fields.specs.Numbers.{number_in};
ghost use Rattle.entries.specs.Relations.{
  no_column,
  no_relation,
  column_at,
  column_bytes,
  relation_at,
  columns_then,
  relation_bytes,
};

use fields::lists::read_many;
use fields::numbers::Width;
use fields::puts::{Part, put_all};
use ground::refusals::Refusal;

#[derive(Clone, Copy)]
pub struct Column {
    pub domain: u8,
    pub width: u8,
    pub distinct: u32,
}

#[derive(Clone, Copy)]
pub struct Relation {
    pub site: u8,
    pub column_count: u8,
    pub rows: u32,
    pub columns: [Column; 8],
}

impl Part for Column {
    ghost bytes = { column_bytes };

    ghost most = { 6 };

    fn put(self, out: &mut [u8], at: usize) -> usize {
        let p = self.domain.put(out, at);
        let q = self.width.put(out, p);
        self.distinct.put(out, q)
    }
}

impl Part for Relation {
    ghost bytes = { relation_bytes };

    ghost most = { 54 };

    fn put(self, out: &mut [u8], at: usize) -> usize {
        let p = self.site.put(out, at);
        let q = self.column_count.put(out, p);
        let u = self.rows.put(out, q);
        let columns = ground::used::first(&self.columns, self.column_count);
        put_all(out, u, columns)
    }
}

// The empty column: what stands in an array behind the last one, and past it.
pub fn no_column() -> Column
    ensures { result ≡ no_column }
{
    Column {
        domain: 0,
        width: 0,
        distinct: 0,
    }
}

// A column of a list of them; past its end the empty one. A name of its own, by which other contracts speak of it.
pub fn column_at(columns: &[Column], i: usize) -> Column
    ensures { result ≡ slice_index_or columns.now i no_column }
{
    columns.get(i).copied().unwrap_or(no_column())
}

// What stands in an array behind the last one.
pub fn no_relation() -> Relation
    ensures { result ≡ no_relation }
{
    Relation {
        site: 0,
        column_count: 0,
        rows: 0,
        columns: [no_column(); 8],
    }
}

// The distinct count of a column: from 1, or from 0 without rows, to the rows and the domain's size, which is 0 past the sizes.
fn read_distinct(
    s: &[u8],
    at: usize,
    rows: u32,
    sizes: &[u32],
    domain: usize,
) -> Result<(u32, usize), Refusal>
    ensures { result ≡ read_of (number_in 4 (min 1 rows) (min rows (slice_index sizes.now domain)) s.now at) }
{
    let size = sizes.get(domain).copied().unwrap_or(0);
    fields::numbers::number_in(s, at, Width::Four, rows.min(1), rows.min(size))
}

fn read_column(
    s: &[u8],
    at: usize,
    count: u8,
    sizes: &[u32],
    rows: u32,
) -> Result<(Column, usize), Refusal>
    ensures { result ≡ read_of (column_at count sizes.now rows s.now at) }
{
    let (domain, p) = fields::numbers::number_below(s, at, Width::One, count as u32)?;
    let (width, q) = fields::numbers::number_in(s, p, Width::One, 1, 255)?;
    let (distinct, end) = read_distinct(s, q, rows, sizes, domain as usize)?;
    let column = Column {
        domain: domain as u8,
        width: width as u8,
        distinct,
    };
    Ok((column, end))
}

// The columns of a relation whose site, count and rows were read.
fn read_columns(
    s: &[u8],
    at: usize,
    count: u8,
    sizes: &[u32],
    site: u8,
    columns: u8,
    rows: u32,
) -> Result<(Relation, usize), Refusal>
    requires { columns ≤ 8 }
    ensures { result ≡ read_of (columns_then count sizes.now s.now site columns rows at) }
{
    let (all, end) = read_many(columns as usize, at, no_column(), |p| {
        read_column(s, p, count, sizes, rows)
    })?;
    let relation = Relation {
        site,
        column_count: columns,
        rows,
        columns: all,
    };
    Ok((relation, end))
}

pub fn read_relation(
    s: &[u8],
    at: usize,
    count: u8,
    sizes: &[u32],
) -> Result<(Relation, usize), Refusal>
    ensures { result ≡ read_of (relation_at count sizes.now s.now at) }
{
    let (site, p) = fields::numbers::number_in(s, at, Width::One, 0, 7)?;
    let (columns, q) = fields::numbers::number_in(s, p, Width::One, 1, 8)?;
    let (rows, start) = fields::numbers::number_in(s, q, Width::Four, 0, 1000000)?;
    read_columns(s, start, count, sizes, site as u8, columns as u8, rows)
}
