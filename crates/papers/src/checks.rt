// Both papers checked: an envelope, then a program, as their bytes would be.
ghost use Rattle.std.specs.Prelude.{◌≡◌};
ghost use Rattle.ground.specs.Outcome.{taken_of};
ghost use Rattle.papers.specs.Checks.{papers_of};

use crate::programs::Program;
use contents::envelope::Envelope;
use ground::refusals::Refusal;

// An envelope and a program for it.
#[derive(Clone, Copy)]
pub struct Papers {
    pub envelope: Envelope,
    pub program: Program,
}

// The envelope first, then the program; what comes back is the papers as they read back.
pub fn check_papers(envelope: Envelope, program: Program) -> Result<Papers, Refusal>
    ensures { result ≡ taken_of (papers_of envelope program) }
{
    let envelope = envelopes::reading::check_envelope(envelope)?;
    let program = crate::programs::program_against(envelope, program)?;
    Ok(Papers { envelope, program })
}
