// The operation *layers*.
ghost use Rattle.layering.specs.Operation.{Layering};

use crate::answer::{Entries, Layers};
use crate::numbers::{Numbers, number};
use crate::ring::ring;
use program::case::Case;
use program::clauses::Clauses;
use program::tables::Tables;
use refusals::Refusal;
use settle::check::check_case;

// Answers the least numbers of a case's atoms, or a ring where the case isn't layered. Refuses a lent table shorter
// than its size, and a case that isn't sound.
pub fn layers(c: Case, t: Tables) -> Result<Layers, Refusal>
    ensures { Layering c t.entry.clauses.now t.entry.constraints.now t.entry.formula.now result }
{
    check_case(c, t)?;
    let clauses = Clauses {
        words: t.clauses,
        count: c.clauses,
    };
    let dependents = prepared::dependent::fill(clauses);
    let Numbers { entries, stuck } = number(&dependents, c.atoms);
    if stuck != 0 {
        return Ok(Layers::Ring(ring(&dependents, stuck)));
    }
    Ok(Layers::Layered(Entries {
        count: c.atoms,
        entries,
    }))
}
