// What the digit of each cause counts in a setting.
ghost use Rattle.std.specs.Prelude.{◌≤◌};
ghost use Rattle.program.specs.Setting.{settings_of};
ghost use Rattle.explanation.specs.Covering.{Weights};

use program::cause::{Causes, choice};
use words::walk::bits_of;

// The weights: for each cause what its digit counts in a setting, 1 for the first, the choice count of the first for
// the next, and so on.
pub fn weigh(causes: Causes) -> [usize; 64]
    requires { settings_of causes ≤ 59049 }
    ensures { Weights causes result }
{
    let mut weights = [0usize; 64];
    let mut weight: usize = 1;
    for atom in bits_of(causes.all) {
        weights[atom as usize] = weight;
        weight *= choice(causes.twofold, atom) as usize;
    }
    weights
}
