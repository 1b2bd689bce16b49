// The envelope's type, as 01's "Papers on the wire" lists its parts.
ghost use Rattle.std.specs.Prelude.{◌≡◌};
ghost use Rattle.contents.specs.Parts.{no_envelope, sizes_of, relations_of, clauses_of, targets_of};

use entries::clauses::Clause;
use entries::places::Place;
use entries::relations::Relation;

// A count says how many places of its array are in use; the methods lend these.
#[derive(Clone, Copy)]
pub struct Envelope {
    pub version: u16,
    pub domain_count: u8,
    pub sizes: [u32; 16],
    pub relation_count: u8,
    pub relations: [Relation; 8],
    pub clause_count: u8,
    pub clauses: [Clause; 12],
    pub target_count: u8,
    pub targets: [Place; 16],
}

impl Envelope {
    #[tactic(auto, unfolding(crate::specs::Parts::sizes_of))]
    pub fn sizes_in_use(&self) -> &[u32]
        ensures { result.now ≡ sizes_of self.now }
    {
        ground::used::first(&self.sizes, self.domain_count)
    }

    #[tactic(auto, unfolding(crate::specs::Parts::relations_of))]
    pub fn relations_in_use(&self) -> &[Relation]
        ensures { result.now ≡ relations_of self.now }
    {
        ground::used::first(&self.relations, self.relation_count)
    }

    #[tactic(auto, unfolding(crate::specs::Parts::clauses_of))]
    pub fn clauses_in_use(&self) -> &[Clause]
        ensures { result.now ≡ clauses_of self.now }
    {
        ground::used::first(&self.clauses, self.clause_count)
    }

    #[tactic(auto, unfolding(crate::specs::Parts::targets_of))]
    pub fn targets_in_use(&self) -> &[Place]
        ensures { result.now ≡ targets_of self.now }
    {
        ground::used::first(&self.targets, self.target_count)
    }
}

// The envelope before anything is read: of an enum with data, as a clause has, no default is derived.
pub fn no_envelope() -> Envelope
    ensures { result ≡ no_envelope }
{
    let sizes = [0u32; 16];
    let relations = [entries::relations::no_relation(); 8];
    let clauses = [entries::clauses::no_clause(); 12];
    let targets = [entries::places::no_place(); 16];
    Envelope {
        version: 0,
        domain_count: 0,
        sizes: sizes,
        relation_count: 0,
        relations: relations,
        clause_count: 0,
        clauses: clauses,
        target_count: 0,
        targets: targets,
    }
}
