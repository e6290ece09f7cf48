// The cheapest of the minimal settings, found block by block.
ghost use Rattle.std.specs.Prelude.{◌≡◌, List, [], ◌∷◌, ◌++◌, ℕ, ◌≤◌, ◌<◌, Some, length};
ghost use Rattle.program.specs.declared.cause.Causes.{Causes};
ghost use Rattle.program.specs.Case.{price_size};
ghost use Rattle.planes.specs.Fill.{Filled};
ghost use Rattle.cost.specs.Cost.{cost_under, priced_in};
ghost use Rattle.cost.specs.Cheapest.{Chosen};
ghost use Rattle.cost.specs.Block.{MinimalIn, lane_settings};

use crate::price::cost_in;
use planes::fill::AddedPlanes;
use words::walk::bits_of;

// The cheapest setting of some, and what it costs.
#[derive(Clone, Copy)]
pub struct Cheapest {
    pub cost: u64,
    pub setting: usize,
}

// The cheapest so far or one setting more: of two that cost the same the first stays.
fn cheaper(best: Option<Cheapest>, other: Cheapest) -> Cheapest
    ensures { (f : ℕ → ℕ) (l : List ℕ) → other.cost ≡ f other.setting → Chosen f l best
        → Chosen f (l ++ (other.setting ∷ [])) (Some result) }
{
    match best {
        Some(k) if k.cost <= other.cost => k,
        _ => other,
    }
}

// The minimal settings of a block: those of the lanes, where first is the setting of lane 0.
#[derive(Clone, Copy)]
pub struct Minimals {
    pub first: usize,
    pub lanes: u64,
}

// The minimal ones of the first m settings from first on: those of the lanes of e explain, those of the lanes of larger
// have a proper subset that explains.
pub fn minimals_of(e: u64, larger: u64, m: u32, first: usize) -> Minimals
    requires { (1 ≤ m) × (m ≤ 64) }
    ensures { MinimalIn e larger m first result }
{
    Minimals {
        first,
        lanes: e & !larger & words::lowest(m),
    }
}

// The cheapest with the minimal settings of a block, of which the planes have what they add. Nothing is cheaper than a
// setting that costs nothing.
pub fn choose(
    prices: &[u32],
    priced: u64,
    added: &AddedPlanes,
    minimals: Minimals,
    best: Option<Cheapest>,
) -> Option<Cheapest>
    requires { (price_size ≤ length prices.now) × (priced ≡ priced_in prices.now)
        × (minimals.first ≤ 59049) }
    ensures { (causes : Causes) (l : List ℕ)
        → Filled causes minimals.first added.now.facts added.now.assumptions
        → Chosen (cost_under prices.now causes) l best
        → Chosen (cost_under prices.now causes) (l ++ lane_settings minimals) result }
{
    if let Some(k) = best
        && k.cost == 0
    {
        return best;
    }
    let mut cheapest = best;
    for j in bits_of(minimals.lanes) {
        let cost = cost_in(prices, priced, added, j);
        let setting = minimals.first + j as usize;
        cheapest = Some(cheaper(cheapest, Cheapest { cost, setting }));
    }
    cheapest
}
