// What a transfer costs: its size times the price from the sender's site to the receiver's; and what a step brings.
ghost use Rattle.std.specs.Prelude.{◌≡◌, ◌+◌, ◌*◌, ◌/◌, ◌%◌, ◌≤◌, nat_eq, slice_index};
ghost use Rattle.ground.specs.Tests.{pick};
ghost use Rattle.contents.specs.Sites.{site_of};
ghost use Rattle.estimates.specs.Profile.{estimated_rows, width_at, benefit};
ghost use Rattle.estimates.specs.Ready.{Cheap, Low, Narrow, Bounded, Shrinks};
ghost use Rattle.estimates.specs.Costs.{plain_costs, priced, step_cost, assembly_at};

use crate::profiles::Profile;
use contents::envelope::Envelope;
use paths::steps::Step;
use std::array;

// The price from site a to site b is prices[8 * a + b].
#[derive(Clone, Copy)]
pub struct Costs {
    pub prices: [u64; 64],
}

fn plain_price(k: usize) -> u64
    ensures { result ≡ pick (nat_eq (k / 8) (k % 8)) 0 1 }
{
    if k / 8 == k % 8 { 0 } else { 1 }
}

// One price between any two sites, none within a site.
pub fn plain_costs() -> Costs
    ensures { result ≡ plain_costs }
{
    Costs {
        prices: array::from_fn(|k| plain_price(k)),
    }
}

// The price between two sites; 0 where there is no such place in the prices.
fn price_at(costs: Costs, sender: u8, receiver: u8) -> u64
    ensures { result ≡ slice_index costs.prices (8 * sender + receiver) }
{
    crate::profiles::number_at(&costs.prices, 8 * (sender as usize) + receiver as usize)
}

fn priced(costs: Costs, sender: u8, receiver: u8, size: u64) -> u64
    requires { Cheap costs × (size ≤ 2040000000) }
    ensures { result ≡ priced costs sender receiver size }
{
    let price = price_at(costs, sender, receiver);
    size * price
}

// What a step sends: the distinct values of its right column.
pub(crate) fn step_cost(costs: Costs, envelope: Envelope, profile: Profile, step: Step) -> u64
    requires { Bounded costs profile }
    ensures { result ≡ step_cost costs envelope profile step }
{
    let left = step.left;
    let right = step.right;
    let column = crate::columns::column_of(&envelope, right);
    let width = column.width as u64;
    let count = profile.count_at(right);
    let sender = contents::sites::site_of(envelope, right.relation);
    let receiver = contents::sites::site_of(envelope, left.relation);
    priced(costs, sender, receiver, count * width)
}

// What one relation costs to be sent to a site.
fn sent(costs: Costs, envelope: Envelope, profile: Profile, site: u8, relation: u8) -> u64
    requires { Bounded costs profile }
    ensures { result ≡ priced costs (site_of envelope relation) site (estimated_rows profile relation * width_at profile relation) }
{
    let rows = profile.rows_at(relation);
    let width = profile.width_at(relation);
    let sender = contents::sites::site_of(envelope, relation);
    priced(costs, sender, site, rows * width)
}

// What assembly at a site costs.
pub fn assembly_at(costs: Costs, envelope: Envelope, profile: Profile, site: u8) -> u64
    requires { Bounded costs profile }
    ensures { result ≡ assembly_at costs envelope profile site }
{
    let end = ground::used::in_use(8, envelope.relation_count) as u8;
    let mut total: u64 = 0;
    for relation in 0..end {
        let more = sent(costs, envelope, profile, site, relation);
        total += more;
    }
    total
}

// What a step brings: width times rows lost.
pub(crate) fn benefit(envelope: Envelope, profile: Profile, step: Step) -> u64
    requires { (Low profile.rows × Low profile.counts) × Narrow profile.widths × Shrinks envelope profile step }
    ensures { result ≡ benefit envelope profile step }
{
    let left = step.left;
    let width = profile.width_at(left.relation);
    let before = profile.rows_at(left.relation);
    let after = profile.rows_after(&envelope, step);
    width * (before - after)
}
