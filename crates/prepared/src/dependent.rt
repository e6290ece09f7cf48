// For each atom its dependents: the heads of the clauses that name it.
ghost use Rattle.std.specs.Prelude.{◌≡◌, ◌<◌};
ghost use Rattle.words.specs.Bits.{word};
ghost use Rattle.prepared.specs.Dependents.{Dependents, Spread, touched_by};

use program::clauses::Clauses;
use words::walk::bits_of;

// Adds a bit to the entries of the atoms of w: here a head to their dependents.
pub fn spread(dependents: &mut [u64; 64], w: u64, head: u32)
    requires { head < 64 }
    ensures { Spread dependents.old w head dependents.new }
{
    let bit = words::single(head);
    for i in bits_of(w) {
        dependents[i as usize] |= bit;
    }
}

// The dependents of each atom by some clauses.
pub fn fill(clauses: Clauses) -> [u64; 64]
    ensures { Dependents clauses.entry.words.now clauses.entry.count result }
{
    let mut dependents = [0; 64];
    for k in 0..clauses.count {
        let clause = clauses.at(k);
        spread(&mut dependents, clause.plain | clause.negated, clause.head);
    }
    dependents
}

// The heads that the atoms of a word touch: those that depend on one of them.
pub fn touched(dependents: &[u64; 64], fresh: u64) -> u64
    ensures { result ≡ word 64 (touched_by dependents.now fresh) }
{
    let mut heads: u64 = 0;
    for i in bits_of(fresh) {
        heads |= dependents[i as usize];
    }
    heads
}
