// Settling a program: the step from nothing decided, until a round newly decides nothing.
ghost use Rattle.std.specs.Prelude.{◌≡◌};
ghost use Rattle.program.specs.Program.{program_with, heads_of};
ghost use Rattle.settle.specs.Rounds.{settled};

use crate::step::apply;
use logic::interpretation::Interpretation;
use program::cause::Additions;
use program::clauses::Clauses;

// The settled interpretation, the number of rounds that changed something, and the sum of the atoms that they newly
// decided.
#[derive(Clone, Copy)]
pub struct Settled {
    pub interpretation: Interpretation,
    pub rounds: u32,
    pub decided: u32,
}

// Settles clauses with a set's facts and assumptions added; heads are the clauses' heads.
pub fn run(clauses: Clauses, heads: u64, added: Additions) -> Settled
    requires { heads ≡ heads_of clauses.words.now clauses.count }
    ensures { result ≡ settled (program_with clauses.entry.words.now clauses.entry.count added) }
{
    let mut interpretation = Interpretation::nothing();
    let mut rounds: u32 = 0;
    let mut decided: u32 = 0;
    // The rounds are no index: they are answered.
    loop {
        let next = apply(interpretation, clauses, heads, added);
        if next.decided == 0 {
            break Settled {
                interpretation,
                rounds,
                decided,
            };
        }
        interpretation = next.interpretation;
        rounds += 1;
        decided += next.decided;
    }
}
