// The interpretation in a lane.
ghost use Rattle.std.specs.Prelude.{◌≡◌, ◌<◌};
ghost use Rattle.words.specs.Bits.{word};
ghost use Rattle.planes.specs.Planes.{at, column};

use crate::plane::TruthPlanes;
use logic::interpretation::Interpretation;

// The atoms that a plane has in lane j.
fn atoms_in(plane: &[u64; 64], j: u32) -> u64
    requires { j < 64 }
    ensures { result ≡ word 64 (at plane.now j) }
{
    let mut atoms: u64 = 0;
    for i in 0..64 {
        atoms = words::with_bit(atoms, words::test(plane[i as usize], j), i);
    }
    atoms
}

// The interpretation in lane j of the planes.
pub fn lane(p: &TruthPlanes, j: u32) -> Interpretation
    requires { j < 64 }
    ensures { result ≡ column p.now.trues p.now.falses j }
{
    Interpretation {
        trues: atoms_in(&p.trues, j),
        falses: atoms_in(&p.falses, j),
    }
}
