// What an envelope has in use: the columns of a relation.
ghost use Rattle.std.specs.Prelude.{◌≡◌};
ghost use Rattle.contents.specs.Parts.{columns_in};

use crate::envelope::Envelope;

// How many columns a relation has; none where the envelope has no such relation.
#[tactic(auto, unfolding(crate::specs::Parts::columns_in))]
pub fn columns_in(envelope: Envelope, relation: u8) -> u32
    ensures { result ≡ columns_in envelope relation }
{
    envelope
        .relations_in_use()
        .get(relation as usize)
        .map_or(0, |own| ground::used::in_use(8, own.column_count) as u32)
}
