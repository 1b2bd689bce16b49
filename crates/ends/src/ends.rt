// An end: what a station remembers of a run between calls; and whether its papers and its counts are sound.
ghost use Rattle.std.specs.Prelude.{◌≡◌, min, slice_index};
ghost use Rattle.ground.specs.Outcome.{taken_of};
ghost use Rattle.ends.specs.Ends.{over_applied, sound_end, usable, start_of, no_end};

use contents::envelope::Envelope;
use ground::refusals::{Reason, Refusal};
use papers::checks::Papers;
use papers::programs::Program;

// applied and arrived have a place for each relation; places behind the last relation play no part. They are two arrays, since a
// message of values changes the one alone, and a message of rows the other. used is how many words of the store hold row messages.
#[derive(Clone, Copy)]
pub struct End {
    pub envelope: Envelope,
    pub program: Program,
    pub site: u32,
    pub run: u32,
    pub applied: [u32; 8],
    pub arrived: [bool; 8],
    pub used: usize,
}

// An end at its start: nothing was applied, and nothing has arrived.
#[tactic(auto, unfolding(crate::specs::Ends::start_of))]
pub fn start_of(papers: Papers, site: u32, run: u32) -> End
    ensures { result ≡ start_of papers site run }
{
    End {
        envelope: papers.envelope,
        program: papers.program,
        site,
        run,
        applied: [0; 8],
        arrived: [false; 8],
        used: 0,
    }
}

// What stands beside a refused opening.
pub fn no_end() -> End
    ensures { result ≡ no_end }
{
    let papers = Papers {
        envelope: contents::envelope::no_envelope(),
        program: papers::programs::no_program(),
    };
    start_of(papers, 0, 0)
}

// Whether more steps of a relation are applied than the program has of it.
fn is_over_applied(program: Program, relations: u8, applied: [u32; 8]) -> bool
    ensures { result ≡ over_applied program (min 8 relations) applied }
{
    let n = program.count as usize;
    for relation in 0..ground::used::in_use(8, relations) as u8 {
        if crate::reducing::steps_before(program, relation, n) < applied[relation as usize] {
            return true;
        }
    }
    false
}

// The papers of an end as they read back, or the refusal: the envelope, the program, then 4 at 0.
pub fn sound_end(end: End) -> Result<Papers, Refusal>
    ensures { result ≡ taken_of (sound_end end) }
{
    let papers = papers::checks::check_papers(end.envelope, end.program)?;
    let relations = papers.envelope.relation_count;
    if is_over_applied(papers.program, relations, end.applied) {
        return Err(Reason::BeyondLimit.at(0));
    }
    Ok(papers)
}

// The same, then the tables, and so many marks: 10, 11.
pub fn usable_end(end: End, tables: &[u32], n: usize) -> Result<Papers, Refusal>
    ensures { result ≡ taken_of (usable end tables.now n) }
{
    let papers = sound_end(end)?;
    tables::shape::judge_marks(papers.envelope, tables, n)?;
    Ok(papers)
}

// Steps applied of a relation; none behind the last.
pub fn applied_of(applied: [u32; 8], relation: u8) -> u32
    ensures { result ≡ slice_index applied relation }
{
    applied.get(relation as usize).copied().unwrap_or(0)
}
