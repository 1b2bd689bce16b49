// An envelope put into a lent buffer, part behind part, as far as the buffer goes: the mark and the version, and its four lists.
ghost use Rattle.fields.specs.Puts.{Fronts};
ghost use Rattle.envelopes.specs.Envelope.{envelope_bytes};

use contents::envelope::Envelope;
use fields::puts::{put_head, put_list};

// It answers the position past the bytes, from the front of the buffer on.
pub(crate) fn put_envelope(out: &mut [u8], envelope: Envelope) -> usize
    ensures { Fronts out.old 621 (envelope_bytes envelope) result out.new }
{
    let p = put_head(out, b'C', b'P', b'N', envelope.version);
    let q = put_list(out, p, envelope.domain_count, envelope.sizes_in_use());
    let u = put_list(out, q, envelope.relation_count, envelope.relations_in_use());
    let v = put_list(out, u, envelope.clause_count, envelope.clauses_in_use());
    put_list(out, v, envelope.target_count, envelope.targets_in_use())
}
