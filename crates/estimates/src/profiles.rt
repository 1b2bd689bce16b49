// A profile: the estimated rows of each relation, the distinct count of each column and the width of each relation; and what a
// selection or a step leaves of it. What goes through Y asks that no row and no count is above 1,000,000, so that no sum wraps.
ghost use Rattle.std.specs.Prelude.{◌≡◌, ◌/◌, ◌%◌, ◌≤◌, ◌<◌, slice_index, set};
ghost use Rattle.entries.specs.Places.{place};
ghost use Rattle.contents.specs.Parts.{relation_in};
ghost use Rattle.estimates.specs.Columns.{column_of};
ghost use Rattle.estimates.specs.Profile.{estimated_rows, distinct_of, width_at, given, shrunk, after_selection, remaining, rows_after, count_after, after_step};
ghost use Rattle.estimates.specs.Ready.{Low};

use contents::envelope::Envelope;
use entries::places::Place;
use paths::steps::Step;
use std::array;

// Relation r has rows[r], its column c has counts[8 * r + c]. Its width, widths[r], stays as it is. Definitions name the three.
#[derive(Clone, Copy)]
pub struct Profile {
    pub rows: [u64; 8],
    pub counts: [u64; 64],
    pub widths: [u64; 8],
}

// The rows of a relation by the envelope; 0 where it has no such relation.
fn given_rows(envelope: Envelope, relation: usize) -> u64
    ensures { result ≡ (relation_in envelope relation).rows }
{
    envelope
        .relations_in_use()
        .get(relation)
        .map_or(0, |own| own.rows as u64)
}

// The distinct count of a column by the envelope, in the order of a profile.
fn given_count(envelope: Envelope, k: usize) -> u64
    requires { k < 64 }
    ensures { result ≡ (column_of envelope (place (k / 8) (k % 8))).distinct }
{
    let place = Place {
        relation: (k / 8) as u8,
        column: (k % 8) as u8,
    };
    let column = crate::columns::column_of(&envelope, place);
    column.distinct as u64
}

// The envelope's own estimates.
pub(crate) fn given(envelope: Envelope) -> Profile
    ensures { result ≡ given envelope }
{
    Profile {
        rows: array::from_fn(|relation| given_rows(envelope, relation)),
        counts: array::from_fn(|k| given_count(envelope, k)),
        widths: array::from_fn(|relation| crate::columns::width_of(envelope, relation as u8)),
    }
}

// A number of a list; 0 behind it.
pub(crate) fn number_at(all: &[u64], i: usize) -> u64
    ensures { result ≡ slice_index all.now i }
{
    all.get(i).copied().unwrap_or(0)
}

// A relation past the array changes nothing.
fn with_rows(all: [u64; 8], relation: u8, rows: u64) -> [u64; 8]
    ensures { result ≡ set all relation rows }
{
    let mut out = all;
    let i = relation as usize;
    if i < 8 {
        out[i] = rows;
    }
    out
}

impl Profile {
    // The rows of a relation; 0 where there is no such relation.
    pub(crate) fn rows_at(&self, relation: u8) -> u64
        ensures { result ≡ estimated_rows self.now relation }
    {
        number_at(&self.rows, relation as usize)
    }

    // The width of a relation; 0 where there is no such relation.
    pub(crate) fn width_at(&self, relation: u8) -> u64
        ensures { result ≡ width_at self.now relation }
    {
        number_at(&self.widths, relation as usize)
    }

    // The distinct count of a column; 0 where there is no such place in a profile.
    pub(crate) fn count_at(&self, place: Place) -> u64
        ensures { result ≡ distinct_of self.now place }
    {
        number_at(
            &self.counts,
            8 * (place.relation as usize) + place.column as usize,
        )
    }

    // The count in place k of a profile that is shrunk.
    fn count_left(&self, place: Place, rows: u64, count: u64, k: usize) -> u64
        requires { ((k < 64) × (rows ≤ 1000000)) × Low self.now.counts }
        ensures { result ≡ slice_index (shrunk self.now place rows count).counts k }
    {
        if k / 8 != place.relation as usize {
            return self.counts[k];
        }
        if k % 8 == place.column as usize {
            return count;
        }
        let before = self.rows_at(place.relation);
        crate::division::short(self.counts[k], before, rows)
    }

    // A relation with other rows, one of its columns with another count; each other column of it by Y.
    fn shrunk(self, place: Place, rows: u64, count: u64) -> Profile
        requires { (rows ≤ 1000000) × Low self.counts }
        ensures { result ≡ shrunk self place rows count }
    {
        Profile {
            rows: with_rows(self.rows, place.relation, rows),
            counts: array::from_fn(|k| self.count_left(place, rows, count, k)),
            widths: self.widths,
        }
    }

    // What a step leaves of a number of its left relation.
    fn remaining(&self, envelope: &Envelope, step: Step, n: u64) -> u64
        requires { (n ≤ 1000000) × Low self.now.counts }
        ensures { result ≡ remaining envelope.now self.now step n }
    {
        let count = self.count_at(step.right);
        let size = crate::columns::domain_size(envelope, step.left);
        crate::division::over(n * count, size as u64)
    }

    // The rows of its left relation that a step leaves.
    pub(crate) fn rows_after(&self, envelope: &Envelope, step: Step) -> u64
        requires { Low self.now.rows × Low self.now.counts }
        ensures { result ≡ rows_after envelope.now self.now step }
    {
        let left = step.left;
        let rows = self.rows_at(left.relation);
        self.remaining(envelope, step, rows)
    }

    // The count of its left column that a step leaves.
    fn count_after(&self, envelope: &Envelope, step: Step) -> u64
        requires { Low self.now.counts }
        ensures { result ≡ count_after envelope.now self.now step }
    {
        let count = self.count_at(step.left);
        self.remaining(envelope, step, count)
    }

    // What a selection on a column leaves.
    pub(crate) fn after_selection(self, place: Place) -> Profile
        requires { Low self.rows × Low self.counts }
        ensures { result ≡ after_selection self place }
    {
        let rows = self.rows_at(place.relation);
        let n = crate::division::over(rows, self.count_at(place));
        if n == 0 {
            self.shrunk(place, n, 0)
        } else {
            self.shrunk(place, n, 1)
        }
    }

    // What a step leaves, where that is at most 1,000,000 rows, as it is where the step loses rows or none.
    pub fn after_step(self, envelope: Envelope, step: Step) -> Profile
        requires { Low self.rows × Low self.counts × (rows_after envelope self step ≤ 1000000) }
        ensures { result ≡ after_step envelope self step }
    {
        let rows = self.rows_after(&envelope, step);
        let count = self.count_after(&envelope, step);
        self.shrunk(step.left, rows, count)
    }
}
