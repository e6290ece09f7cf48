// The operation *settle one setting*.
ghost use Rattle.settle.specs.Operation.{SettledOne};

use crate::check::check_case;
use crate::settle::Settled;
use program::case::Case;
use program::clauses::Clauses;
use program::tables::Tables;
use refusals::Refusal;

// Settles one setting of a case. Refuses a lent table shorter than its size, a case that isn't sound, and a setting
// that the case doesn't have.
pub fn settle_one(c: Case, t: Tables, setting: u64) -> Result<Settled, Refusal>
    ensures { SettledOne c t.entry.clauses.now t.entry.constraints.now t.entry.formula.now setting result }
{
    check_case(c, t)?;
    let clauses = Clauses {
        words: t.clauses,
        count: c.clauses,
    };
    let heads = program::cause::heads(clauses);
    let causes = program::cause::causes_in(c.edition, c.atoms, clauses, heads);
    if program::cause::settings(causes) <= setting {
        return Err(Refusal::NoSetting);
    }
    let added = program::cause::added(causes, setting);
    Ok(crate::settle::run(clauses, heads, added))
}
