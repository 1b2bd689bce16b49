// Opening an end: its papers are checked, and its marks set by the local operations of the relations that are here.
ghost use Rattle.std.specs.Prelude.{◌≡◌};
ghost use Rattle.papers.specs.Checks.{GoodPapers};
ghost use Rattle.station.specs.Opening.{open_with, open_of, opened_end, opened_marks, here_at};

use contents::envelope::Envelope;
use ends::ends::End;
use ground::refusals::{Reason, Refusal};
use papers::checks::Papers;
use papers::programs::Program;
use std::array;

// Which relations are at a site.
fn here_at(envelope: Envelope, site: u32) -> [bool; 8]
    ensures { result ≡ here_at envelope site }
{
    array::from_fn(|relation| contents::sites::is_at(envelope, site, relation as u8))
}

// With good papers: 10, 4, 11.
fn open_with(
    papers: Papers,
    site: u32,
    run: u32,
    tables: &[u32],
    marks: &mut [u8],
) -> Result<End, Refusal>
    requires { GoodPapers papers }
    ensures { (result ≡ opened_end (open_with papers site run tables.now marks.old)) × (marks.new ≡ opened_marks marks.old (open_with papers site run tables.now marks.old)) }
{
    if !tables::shape::is_shaped(papers.envelope, tables) {
        return Err(Reason::WrongShape.at(0));
    }
    if 7 < site {
        return Err(Reason::BeyondLimit.at(0));
    }
    let here = here_at(papers.envelope, site);
    semijoin::local::open_marks(papers.envelope, tables, here, marks)?;
    Ok(ends::ends::start_of(papers, site, run))
}

// An end at a site for a run: the envelope, the program, then 10, 4, 11.
pub fn open(
    envelope: Envelope,
    program: Program,
    site: u32,
    run: u32,
    tables: &[u32],
    marks: &mut [u8],
) -> Result<End, Refusal>
    ensures { (result ≡ opened_end (open_of envelope program site run tables.now marks.old)) × (marks.new ≡ opened_marks marks.old (open_of envelope program site run tables.now marks.old)) }
{
    let papers = papers::checks::check_papers(envelope, program)?;
    open_with(papers, site, run, tables, marks)
}
