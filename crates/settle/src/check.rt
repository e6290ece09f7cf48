// What every operation on a case asks first.
ghost use Rattle.std.specs.Prelude.{◌≡◌};
ghost use Rattle.program.specs.Case.{tables_full};
ghost use Rattle.program.specs.Sound.{sound};
ghost use Rattle.settle.specs.Check.{checked};

use program::case::Case;
use program::tables::Tables;
use refusals::Refusal;

// Refuses a lent table shorter than its size, then a case that isn't sound.
pub fn check_case(c: Case, t: Tables) -> Result<(), Refusal>
    ensures { result ≡ checked (tables_full t.entry.clauses.now t.entry.constraints.now t.entry.formula.now)
        (sound c t.entry.clauses.now t.entry.constraints.now t.entry.formula.now) }
{
    if !program::case::tables_full(t) {
        return Err(Refusal::ShortTable);
    }
    if !program::sound::is_sound(c, t) {
        return Err(Refusal::Unsound);
    }
    Ok(())
}
