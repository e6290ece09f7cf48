// What the sets in lanes cost.
ghost use Rattle.std.specs.Prelude.{◌≡◌, ℕ, ◌+◌, ◌≤◌, ◌<◌, length};
ghost use Rattle.words.specs.Choice.{pick};
ghost use Rattle.program.specs.declared.cause.Causes.{Causes};
ghost use Rattle.program.specs.Case.{price_size};
ghost use Rattle.planes.specs.Fill.{Filled};
ghost use Rattle.cost.specs.Cost.{cost_under, priced_in};

use planes::fill::AddedPlanes;
use words::walk::bits_of;

// The atoms with a price above 0.
pub fn priced_in(prices: &[u32]) -> u64
    requires { price_size ≤ length prices.now }
    ensures { result ≡ priced_in prices.now }
{
    let mut priced: u64 = 0;
    for a in 0..64 {
        priced = words::with_bit(priced, 0 < prices[a as usize], a);
    }
    priced
}

// The price where the test holds, otherwise 0.
fn price_if(on: bool, price: u32) -> u64
    ensures { result ≡ pick on price 0 }
{
    if on { price as u64 } else { 0 }
}

// The cost of the set in lane j of what settings add; priced has the atoms with a price above 0.
pub fn cost_in(prices: &[u32], priced: u64, added: &AddedPlanes, j: u32) -> u64
    requires { (price_size ≤ length prices.now) × (priced ≡ priced_in prices.now) × (j < 64) }
    ensures { (causes : Causes) (s : ℕ) → Filled causes s added.now.facts added.now.assumptions
        → result ≡ cost_under prices.now causes (s + j) }
{
    let mut cost: u64 = 0;
    for a in bits_of(priced) {
        let at = a as usize;
        let on = words::test(added.facts[at] | added.assumptions[at], j);
        cost += price_if(on, prices[at]);
    }
    cost
}
