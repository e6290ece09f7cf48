// The opening: the first round, which is nearly the same for every set of causes.
ghost use Rattle.std.specs.Prelude.{◌≡◌};
ghost use Rattle.program.specs.Program.{heads_of};
ghost use Rattle.prepared.specs.Opening.{opening_of};

use logic::interpretation::Interpretation;
use program::cause::Additions;
use program::clauses::Clauses;

// The first round's true and false atoms where nothing is added, and the clauses' heads, bit i for atom i.
#[derive(Clone, Copy)]
pub struct Opening {
    pub trues: u64,
    pub falses: u64,
    pub heads: u64,
}

// The opening of clauses whose heads are given.
pub fn first_round(clauses: Clauses, heads: u64) -> Opening
    requires { heads ≡ heads_of clauses.words.now clauses.count }
    ensures { result ≡ opening_of clauses.entry.words.now clauses.entry.count }
{
    let none = Additions {
        facts: 0,
        assumptions: 0,
    };
    let first = settle::step::apply(Interpretation::nothing(), clauses, heads, none).interpretation;
    Opening {
        trues: first.trues,
        falses: first.falses,
        heads,
    }
}
