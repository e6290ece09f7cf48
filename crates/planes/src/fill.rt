// The planes of what 64 settings add, and planes that are the same in each lane.
ghost use Rattle.std.specs.Prelude.{◌≡◌, ℕ, ◌+◌, ◌<◌};
ghost use Rattle.words.specs.Bits.{has};
ghost use Rattle.program.specs.Setting.{additions_of};
ghost use Rattle.planes.specs.Fill.{Filled, Even};

use prepared::dependent::spread;
use program::cause::{Additions, Causes};

// For each atom the lanes whose settings add it as a fact, and those whose settings add it as an assumption.
#[derive(Clone, Copy)]
pub struct AddedPlanes {
    pub facts: [u64; 64],
    pub assumptions: [u64; 64],
}

// Fills the planes with what 64 settings from one on add, of which the first adds this; answers what the setting behind
// them adds. The planes are lent, since a kilobyte that is returned is copied twice.
pub fn fill(causes: Causes, added: Additions, planes: &mut AddedPlanes) -> Additions
    ensures { (s : ℕ) → added ≡ additions_of causes s
        → Filled causes s planes.new.facts planes.new.assumptions × (result ≡ additions_of causes (s + 64)) }
{
    planes.facts = [0; 64];
    planes.assumptions = [0; 64];
    let mut next = added;
    for j in 0..64 {
        spread(&mut planes.facts, next.facts, j);
        spread(&mut planes.assumptions, next.assumptions, j);
        next = next.next(causes);
    }
    next
}

// All lanes where the test holds, otherwise none.
fn even(on: bool) -> u64
    ensures { (j : ℕ) → j < 64 → has result j ≡ on }
{
    if on { !0u64 } else { 0 }
}

// The plane that is the same in each lane: an atom's word has all lanes or none.
pub fn broadcast(w: u64) -> [u64; 64]
    ensures { Even w result }
{
    let mut plane = [0u64; 64];
    for i in 0..64 {
        plane[i as usize] = even(words::test(w, i));
    }
    plane
}
