// The opening and the tables, prepared once a case.
ghost use Rattle.std.specs.Prelude.{◌≡◌};
ghost use Rattle.program.specs.Program.{heads_of};
ghost use Rattle.prepared.specs.Prepared.{Prepared};

use crate::chain::Chains;
use crate::opening::Opening;
use program::clauses::Clauses;

// The first round, the dependents of each atom, the last rule of each head, and for each clause the last rule before it
// with its head, rules by one more than their numbers.
#[derive(Clone, Copy)]
pub struct Preparation {
    pub opening: Opening,
    pub dependents: [u64; 64],
    pub last: [usize; 64],
    pub prev: [usize; 256],
}

// Prepares the settling of clauses whose heads are given.
pub fn prepare(clauses: Clauses, heads: u64) -> Preparation
    requires { heads ≡ heads_of clauses.words.now clauses.count }
    ensures { Prepared clauses.entry.words.now clauses.entry.count result }
{
    let Chains { last, prev } = crate::chain::fill(clauses);
    Preparation {
        opening: crate::opening::first_round(clauses, heads),
        dependents: crate::dependent::fill(clauses),
        last,
        prev,
    }
}
