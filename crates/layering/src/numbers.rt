// The least numbers, round after round: those atoms fall out that depend on none of the atoms left.
ghost use Rattle.std.specs.Prelude.{◌≡◌, ◌≤◌};
ghost use Rattle.layering.specs.Numbers.{Given, Numbered};

use prepared::dependent::touched;
use words::walk::bits_of;

// Gives the number k to the atoms of w.
fn give(numbers: &mut [u64; 64], w: u64, k: u64)
    ensures { Given numbers.old w k numbers.new }
{
    for a in bits_of(w) {
        numbers[a as usize] = k;
    }
}

// The least number of each atom that has one, 0 elsewhere, and the atoms that have none, bit i for atom i.
#[derive(Clone, Copy)]
pub struct Numbers {
    pub entries: [u64; 64],
    pub stuck: u64,
}

// The least numbers of n atoms; each atom that has none depends on one of these.
pub fn number(dependents: &[u64; 64], n: usize) -> Numbers
    requires { (1 ≤ n) × (n ≤ 64) }
    ensures { Numbered n dependents.now result.stuck result.entries }
{
    let mut entries = [0; 64];
    let mut left = words::lowest(n as u32);
    for k in 0..n as u64 {
        let next = left & touched(dependents, left);
        if next == left {
            break;
        }
        give(&mut entries, left & !next, k);
        left = next;
    }
    Numbers {
        entries,
        stuck: left,
    }
}
