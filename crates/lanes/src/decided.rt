// How many atoms are decided in lanes.
ghost use Rattle.std.specs.Prelude.{◌≡◌, ◌≤◌};
ghost use Rattle.words.specs.Below.{sum};
ghost use Rattle.logic.specs.Interpretation.{decided_in};
ghost use Rattle.planes.specs.Planes.{column, Planes};

use planes::plane::TruthPlanes;

// The sum of the numbers of decided atoms in the first m lanes, counted atom by atom.
pub fn decided_in(p: &TruthPlanes, m: u32) -> u32
    requires { (1 ≤ m) × (m ≤ 64) × Planes p.now.trues p.now.falses }
    ensures { result ≡ sum m (λ j. decided_in (column p.now.trues p.now.falses j)) }
{
    let valid = words::lowest(m);
    let mut total: u32 = 0;
    for a in 0..64 {
        total += words::count((p.trues[a] | p.falses[a]) & valid);
    }
    total
}
