// Local operations: the rows of a relation that pass its implied selections and equalities, and the marks at opening.
ghost use Rattle.std.specs.Prelude.{◌≡◌, true, false, [], map, ◌+◌, ◌≤◌, length, slice_index_or, nat_eq};
ghost use Rattle.std.proofs.lemmas.List.Edits.{sets};
ghost use Rattle.ground.specs.Lists.{all};
ghost use Rattle.ground.specs.Outcome.{verdict_of, value_of};
ghost use Rattle.envelopes.specs.Rules.{Within};
ghost use Rattle.tables.specs.Offsets.{row_count, rows_over};
ghost use Rattle.tables.specs.Shape.{shaped};
ghost use Rattle.tables.specs.Rows.{word_over};
ghost use Rattle.semijoin.specs.Local.{opened_in, open_outcome, opening_mark};

use contents::envelope::Envelope;
use ground::refusals::Refusal;
use paths::implied::{Equal, Equalities, Selected, Selections};
use tables::offsets::Extent;
use tables::rows::word_at;

// The local operations of one relation, and whether it is here.
#[derive(Clone, Copy)]
struct Local<'a> {
    here: bool,
    selections: &'a [Selected],
    equalities: &'a [Equal],
}

impl<'a> Local<'a> {
    fn is_selected(&self, tables: &[u32], extent: Extent, row: usize) -> bool
        ensures { result ≡ all (λ (s : Selected). nat_eq (word_over extent tables.now row s.column) s.value) self.now.selections.now }
    {
        self.selections
            .iter()
            .all(|s| word_at(tables, extent, row, s.column) == s.value)
    }

    fn is_equal(&self, tables: &[u32], extent: Extent, row: usize) -> bool
        ensures { result ≡ all (λ (s : Equal). nat_eq (word_over extent tables.now row s.left) (word_over extent tables.now row s.right)) self.now.equalities.now }
    {
        self.equalities.iter().all(|s| word_at(tables, extent, row, s.left)
            == word_at(tables, extent, row, s.right))
    }

    // The mark of a row at opening: 1 where the relation is here and the row passes, else 0.
    #[tactic(auto, unfolding(crate::specs::Local::opening_mark, crate::specs::Local::passes_by))]
    fn opening_mark(&self, tables: &[u32], extent: Extent, row: usize) -> u8
        ensures { result ≡ opening_mark self.now.here self.now.selections.now self.now.equalities.now (slice_index_or (rows_over extent tables.now) row []) }
    {
        if self.here
            && self.is_selected(tables, extent, row)
            && self.is_equal(tables, extent, row)
        {
            1
        } else {
            0
        }
    }

    // The marks of the relation's rows.
    fn open_rows(&self, tables: &[u32], extent: Extent, marks: &mut [u8])
        requires { extent.mark + extent.rows ≤ length marks.old }
        ensures { marks.new ≡ sets marks.old extent.mark (map (opening_mark self.now.here self.now.selections.now self.now.equalities.now) (rows_over extent tables.now)) }
    {
        for row in 0..extent.rows {
            let mark = self.opening_mark(tables, extent, row);
            marks[extent.mark + row] = mark;
        }
    }
}

// The marks of every row: by its local operations where its relation is here, else 0. The envelope was found good.
pub(crate) fn open_all(envelope: Envelope, tables: &[u32], here: [bool; 8], marks: &mut [u8])
    requires { Within envelope × (shaped envelope tables.now ≡ true) × (row_count envelope tables.now ≤ length marks.old) }
    ensures { marks.new ≡ opened_in envelope tables.now (λ r. slice_index_or here r false) marks.old }
{
    let labels = paths::labels::labels_of(envelope);
    let end = ground::used::in_use(8, envelope.relation_count);
    for relation in 0..end {
        let own = here[relation];
        let relation = relation as u8;
        let extent = tables::offsets::extent_of(envelope, tables, relation);
        let selected = paths::implied::selections_by(envelope, labels, relation);
        let equal = paths::implied::equalities_by(envelope, labels, relation);
        let local = Local {
            here: own,
            selections: ground::used::first(&selected.all, selected.count),
            equalities: ground::used::first(&equal.all, equal.count),
        };
        local.open_rows(tables, extent, marks);
    }
}

// The same for any envelope, tables and marks: the envelope is checked, then 10, 11.
pub fn open_marks(
    envelope: Envelope,
    tables: &[u32],
    here: [bool; 8],
    marks: &mut [u8],
) -> Result<(), Refusal>
    ensures { (result ≡ verdict_of (open_outcome envelope tables.now (λ r. slice_index_or here r false) marks.old)) × (marks.new ≡ value_of marks.old (open_outcome envelope tables.now (λ r. slice_index_or here r false) marks.old)) }
{
    let envelope = envelopes::reading::check_envelope(envelope)?;
    tables::shape::judge_marks(envelope, tables, marks.len())?;
    open_all(envelope, tables, here, marks);
    Ok(())
}
