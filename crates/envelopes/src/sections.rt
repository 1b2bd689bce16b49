// The envelope's parts read one by one, each put into the envelope that came so far.
ghost use Rattle.std.specs.Prelude.{◌≡◌};
ghost use Rattle.ground.specs.Outcome.{read_of};
ghost use Rattle.envelopes.specs.Envelope.{sizes_into, relations_into, clauses_into, targets_into};

use contents::envelope::Envelope;
use fields::lists::read_list;
use fields::numbers::Width;
use ground::refusals::Refusal;

pub(crate) fn read_sizes(
    s: &[u8],
    at: usize,
    envelope: Envelope,
) -> Result<(Envelope, usize), Refusal>
    ensures { result ≡ read_of (sizes_into s.now at envelope) }
{
    let ((domain_count, sizes), end) = read_list(s, at, 1, 0, |p| {
        fields::numbers::number_in(s, p, Width::Four, 1, 16777215)
    })?;
    let more = Envelope {
        domain_count,
        sizes,
        ..envelope
    };
    Ok((more, end))
}

pub(crate) fn read_relations(
    s: &[u8],
    at: usize,
    envelope: Envelope,
) -> Result<(Envelope, usize), Refusal>
    ensures { result ≡ read_of (relations_into s.now at envelope) }
{
    let empty = entries::relations::no_relation();
    let ((relation_count, relations), end) = read_list(s, at, 1, empty, |p| {
        entries::relations::read_relation(s, p, envelope.domain_count, &envelope.sizes)
    })?;
    let more = Envelope {
        relation_count,
        relations,
        ..envelope
    };
    Ok((more, end))
}

pub(crate) fn read_clauses(
    s: &[u8],
    at: usize,
    envelope: Envelope,
) -> Result<(Envelope, usize), Refusal>
    ensures { result ≡ read_of (clauses_into s.now at envelope) }
{
    let empty = entries::clauses::no_clause();
    let ((clause_count, clauses), end) = read_list(s, at, 0, empty, |p| {
        entries::clauses::read_clause(s, p, envelope.relation_count, &envelope.relations)
    })?;
    let more = Envelope {
        clause_count,
        clauses,
        ..envelope
    };
    Ok((more, end))
}

pub(crate) fn read_targets(
    s: &[u8],
    at: usize,
    envelope: Envelope,
) -> Result<(Envelope, usize), Refusal>
    ensures { result ≡ read_of (targets_into s.now at envelope) }
{
    let empty = entries::places::no_place();
    let ((target_count, targets), end) = read_list(s, at, 1, empty, |p| {
        entries::places::read_place(s, p, envelope.relation_count, &envelope.relations)
    })?;
    let more = Envelope {
        target_count,
        targets,
        ..envelope
    };
    Ok((more, end))
}
