// The whole envelope: read from bytes, the mark and version, the parts one after the other, then 7, then 9; checked as its
// bytes would be; and written.
ghost use Rattle.std.specs.Prelude.{◌≡◌};
ghost use Rattle.ground.specs.Outcome.{taken_of};
ghost use Rattle.envelopes.specs.Envelope.{
  ended,
  read_envelope,
  check_envelope,
  envelope_written,
  envelope_written_in,
};

use contents::envelope::Envelope;
use ground::refusals::{Reason, Refusal};

// Nothing may be left over, and each relation has a kept column.
fn at_end(s: &[u8], at: usize, envelope: Envelope) -> Result<Envelope, Refusal>
    ensures { result ≡ taken_of (ended s.now at envelope) }
{
    if at < s.len() {
        return Err(Reason::LeftOver.at(at));
    }
    match contents::kept::lowest_bare(envelope) {
        Some(relation) => Err(Reason::NoKeptColumn.at(relation as usize)),
        None => Ok(envelope),
    }
}

// An envelope from its bytes: the mark CPN, version 1, the four lists, and the end.
pub fn read_envelope(s: &[u8]) -> Result<Envelope, Refusal>
    ensures { result ≡ taken_of (read_envelope s.now) }
{
    let (version, p) = fields::numbers::read_head(s, b'C', b'P', b'N', 1)?;
    let start = Envelope {
        version: version as u16,
        ..contents::envelope::no_envelope()
    };
    let (with_sizes, q) = crate::sections::read_sizes(s, p, start)?;
    let (with_relations, u) = crate::sections::read_relations(s, q, with_sizes)?;
    let (with_clauses, v) = crate::sections::read_clauses(s, u, with_relations)?;
    let (with_targets, end) = crate::sections::read_targets(s, v, with_clauses)?;
    at_end(s, end, with_targets)
}

// An envelope that is a struct, checked as its bytes would be; what comes back is what those bytes read as.
pub fn check_envelope(envelope: Envelope) -> Result<Envelope, Refusal>
    ensures { result ≡ taken_of (check_envelope envelope) }
{
    let mut bytes = [0u8; 621];
    let n = crate::puts::put_envelope(&mut bytes, envelope);
    read_envelope(&bytes[..n])
}

// The bytes of an envelope to the front of a lent buffer, once it was checked; 11 where they do not fit.
pub fn write_envelope(envelope: Envelope, out: &mut [u8]) -> Result<usize, Refusal>
    ensures { (result ≡ envelope_written envelope out.old) × (out.new ≡ envelope_written_in envelope out.old) }
{
    check_envelope(envelope)?;
    let mut bytes = [0u8; 621];
    let n = crate::puts::put_envelope(&mut bytes, envelope);
    fields::puts::write_front(&bytes[..n], out)
}
