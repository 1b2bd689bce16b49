// Where relations are: each is at one site. No other place compares a relation's site, but for the prices
// of estimates, which are 0 from a site to itself.
ghost use Rattle.std.specs.Prelude.{◌≡◌};
ghost use Rattle.contents.specs.Sites.{site_of, is_at, holds};

use crate::envelope::Envelope;

// The site of a relation; 0 where the envelope has no such relation.
#[tactic(auto, unfolding(crate::specs::Sites::site_of))]
pub fn site_of(envelope: Envelope, relation: u8) -> u8
    ensures { result ≡ site_of envelope relation }
{
    envelope
        .relations_in_use()
        .get(relation as usize)
        .map_or(0, |own| own.site)
}

// Whether a relation exists and is at a site, which is any word.
#[tactic(auto, unfolding(crate::specs::Sites::is_at))]
pub fn is_at(envelope: Envelope, site: u32, relation: u8) -> bool
    ensures { result ≡ is_at envelope site relation }
{
    let count = ground::used::in_use(8, envelope.relation_count);
    (relation as usize) < count && site_of(envelope, relation) as u32 == site
}

// Whether a site holds a relation. A loop, since of a range the library does not say its items as a list.
pub fn holds_relation(envelope: Envelope, site: u8) -> bool
    ensures { result ≡ holds envelope site }
{
    let end = ground::used::in_use(8, envelope.relation_count) as u8;
    for i in 0..end {
        if is_at(envelope, site as u32, i) {
            return true;
        }
    }
    false
}
