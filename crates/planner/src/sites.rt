// The cheapest site: of those that hold a relation the one at which assembly costs least, the lowest on a tie.
ghost use Rattle.std.specs.Prelude.{◌≡◌, ℕ, ◌<◌};
ghost use Rattle.ground.specs.Tests.{pick};
ghost use Rattle.contents.specs.Sites.{holds};
ghost use Rattle.estimates.specs.Costs.{assembly_at};
ghost use Rattle.planner.specs.Plan.{site_for};
ghost use Rattle.estimates.specs.Ready.{Bounded};

use contents::envelope::Envelope;
use estimates::costs::Costs;
use estimates::profiles::Profile;

// Above what assembly can cost anywhere.
const TOP: u64 = 16320000001;

// What assembly at a site costs, or TOP where the site holds no relation: so the least of all eight is that of a site that does.
fn held_assembly(costs: Costs, envelope: Envelope, profile: Profile, site: u8) -> u64
    requires { Bounded costs profile }
    ensures { result ≡ pick (holds envelope site) (assembly_at costs envelope profile site) 16320000001 }
{
    if contents::sites::holds_relation(envelope, site) {
        estimates::costs::assembly_at(costs, envelope, profile, site)
    } else {
        TOP
    }
}

pub(crate) fn site_for(costs: Costs, envelope: Envelope, profile: Profile) -> u8
    requires { Bounded costs profile × ((site : ℕ) → assembly_at costs envelope profile site < 16320000001) }
    ensures { result ≡ site_for costs envelope profile }
{
    let mut best: u8 = 0;
    let mut least: u64 = TOP;
    for site in 0..8 {
        let cost = held_assembly(costs, envelope, profile, site);
        if cost < least {
            best = site;
            least = cost;
        }
    }
    best
}
