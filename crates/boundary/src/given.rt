// Papers given as bytes, and an end given as papers and words: read, or refused; and the two calls that read papers.
ghost use Rattle.std.specs.Prelude.{◌≡◌};
ghost use Rattle.ground.specs.Outcome.{taken_of, verdict_of};
ghost use Rattle.envelopes.specs.Envelope.{read_envelope};
ghost use Rattle.boundary.specs.Answers.{verdict_number};
ghost use Rattle.boundary.specs.Given.{papers_in, end_in};

use crate::answers::of_taken;
use ends::ends::End;
use ground::refusals::{Reason, Refusal};
use papers::checks::Papers;

// The papers.
pub(crate) fn read_papers(envelope: &[u8], program: &[u8]) -> Result<Papers, Refusal>
    ensures { result ≡ taken_of (papers_in envelope.now program.now) }
{
    let envelope = envelopes::reading::read_envelope(envelope)?;
    let program = papers::programs::read_program(envelope, program)?;
    Ok(Papers { envelope, program })
}

// The end that papers and words are: 11 at 0, the papers, 4 at 0.
pub(crate) fn read_end(envelope: &[u8], program: &[u8], state: &[u32]) -> Result<End, Refusal>
    ensures { result ≡ taken_of (end_in envelope.now program.now state.now) }
{
    if state.len() < crate::states::LENGTH {
        return Err(Reason::TooShort.at(0));
    }
    let papers = read_papers(envelope, program)?;
    if crate::states::is_unclear(state) {
        return Err(Reason::BeyondLimit.at(0));
    }
    Ok(crate::states::end_of(papers, state))
}

// 1: an envelope is read. Taken, 0.
pub fn legestran_read_envelope(envelope: &[u8]) -> u64
    ensures { result ≡ verdict_number (verdict_of (read_envelope envelope.now)) }
{
    of_taken(&envelopes::reading::read_envelope(envelope))
}

// 2: an envelope, then a program for it, is read. Taken, 0.
pub fn legestran_read_program(envelope: &[u8], program: &[u8]) -> u64
    ensures { result ≡ verdict_number (verdict_of (papers_in envelope.now program.now)) }
{
    of_taken(&read_papers(envelope, program))
}
