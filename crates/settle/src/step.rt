// One application of the step.
ghost use Rattle.std.specs.Prelude.{◌≡◌};
ghost use Rattle.logic.specs.Formula.{value_of};
ghost use Rattle.logic.specs.Formula.{body as Formula·body};
ghost use Rattle.logic.specs.Interpretation.{value_at, Disjoint};
ghost use Rattle.program.specs.Program.{by_kind, program_with, heads_of};
ghost use Rattle.settle.specs.Step.{stepped};

use logic::interpretation::Interpretation;
use logic::value::Value;
use program::cause::Additions;
use program::clause::Clause;
use program::clauses::Clauses;

// The value of a clause's body by its kind and its literals.
pub fn body_value(i: Interpretation, clause: Clause) -> Value
    requires { Disjoint i }
    ensures { result ≡ value_of (value_at i) (by_kind clause.kind (Formula·body clause.plain clause.negated)) }
{
    match clause.kind {
        0 => Value::True,
        1 => Value::False,
        _ => i.body(clause.plain, clause.negated),
    }
}

// What one application answers: the interpretation after, and how many atoms it decides newly.
#[derive(Clone, Copy)]
pub struct Stepped {
    pub interpretation: Interpretation,
    pub decided: u32,
}

// The interpretation after i, and how many atoms it decides newly. The defined atoms are false at first, and each
// clause raises its head to its body's value.
pub fn apply(i: Interpretation, clauses: Clauses, heads: u64, added: Additions) -> Stepped
    requires { Disjoint i × (heads ≡ heads_of clauses.words.now clauses.count) }
    ensures { result ≡ stepped (program_with clauses.entry.words.now clauses.entry.count added) i }
{
    let mut next = Interpretation {
        trues: added.facts,
        falses: (heads | added.assumptions) & !added.facts,
    };
    for k in 0..clauses.count {
        let clause = clauses.at(k);
        next = next.raise(clause.head, body_value(i, clause));
    }
    let decided = next.newly_decided(i);
    Stepped {
        interpretation: next,
        decided,
    }
}
