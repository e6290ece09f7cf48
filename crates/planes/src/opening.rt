// The planes of an opening, the same in each lane.
ghost use Rattle.planes.specs.Opening.{OpeningIn};

use crate::fill::broadcast;
use prepared::opening::Opening;

// For each atom all lanes or none, as the opening has it true, has it false, and has it as a head.
#[derive(Clone, Copy)]
pub struct OpeningPlanes {
    pub trues: [u64; 64],
    pub falses: [u64; 64],
    pub heads: [u64; 64],
}

impl OpeningPlanes {
    // The opening in each lane.
    pub fn of(opening: Opening) -> OpeningPlanes
        ensures { OpeningIn opening result }
    {
        OpeningPlanes {
            trues: broadcast(opening.trues),
            falses: broadcast(opening.falses),
            heads: broadcast(opening.heads),
        }
    }
}
