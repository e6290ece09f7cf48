// A ring among atoms each of which depends on one of them: the end of a path that goes from atom to atom.
ghost use Rattle.std.specs.Prelude.{◌≡◌, true, ℕ, ◌<◌, length, get_or};
ghost use Rattle.words.specs.Bits.{has};
ghost use Rattle.words.specs.OneBit.{BitOf};
ghost use Rattle.layering.specs.Numbers.{linked_by};
ghost use Rattle.layering.specs.Path.{Stuck, Followed, Ringed};

use crate::answer::Entries;
use words::walk::bits_of;

// A path: its atoms in front of zeros, how many they are, the same as a word, and the atom that comes behind them.
#[derive(Clone, Copy)]
pub struct Trail {
    pub atoms: [u64; 64],
    pub len: usize,
    pub seen: u64,
    pub at: u32,
}

// The lowest of some atoms that an atom depends on. There is one, so the walk over them does not end before it.
fn next(dependents: &[u64; 64], among: u64, at: u32) -> u32
    requires { (at < 64)
        × ((b : ℕ) × BitOf among b × (linked_by dependents.now at b ≡ true)) }
    ensures { BitOf among result × (linked_by dependents.now at result ≡ true) }
{
    for b in bits_of(among) {
        if words::test(dependents[b as usize], at) {
            return b;
        }
    }
    at
}

// Goes from the lowest stuck atom on, each time to a stuck atom that the last one depends on, until one comes again.
fn follow(dependents: &[u64; 64], stuck: u64) -> Trail
    requires { Stuck dependents.now stuck × (stuck ≡ 0 → ⊥) }
    ensures { Followed dependents.now stuck result.atoms result.len result.seen result.at
        × (has result.seen result.at ≡ true) }
{
    let mut atoms = [0; 64];
    let mut len = 0;
    let mut seen = 0;
    let mut at = words::lowest_bit(stuck);
    // It ends by what was seen, not by an index.
    while !words::test(seen, at) {
        atoms[len] = at as u64;
        len += 1;
        seen |= words::single(at);
        at = next(dependents, stuck, at);
    }
    Trail {
        atoms,
        len,
        seen,
        at,
    }
}

// The place of an atom in a path that has it.
fn place(path: &[u64], at: u64) -> usize
    requires { (j : ℕ) × (j < length path.now) × (get_or path.now j 0 ≡ at) }
    ensures { (result < length path.now) × (get_or path.now result 0 ≡ at) }
{
    path.iter().position(|a| *a == at).unwrap_or(0)
}

// A ring among stuck atoms, of which there are some.
pub fn ring(dependents: &[u64; 64], stuck: u64) -> Entries
    requires { Stuck dependents.now stuck × (stuck ≡ 0 → ⊥) }
    ensures { Ringed dependents.now stuck result.count result.entries }
{
    let Trail { atoms, len, at, .. } = follow(dependents, stuck);
    let path = &atoms[..len];
    Entries::of(&path[place(path, at as u64)..])
}
