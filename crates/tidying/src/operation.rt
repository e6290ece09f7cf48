// The operation *tidy*.
ghost use Rattle.store.specs.LentTables.{lent_of};
ghost use Rattle.report.specs.Operation.{ReportShown};
ghost use Rattle.tidying.specs.Text.{written_text};
ghost use Rattle.tidying.specs.Operation.{Tidied};

use program::case::Case;
use reader::read::read;
use refusals::Refusal;
use report::operation::show_refusal;
use store::lent::LentTables;
use writing::operation::write;

// Writes a case back, or the text of the refusal, unless the output is too short.
fn show_case(c: Case, t: LentTables, out: &mut [u8]) -> Result<usize, Refusal>
    ensures { ReportShown (written_text c (lent_of t.entry)) out.old result out.new }
{
    match write(c, t, out) {
        Ok(length) => Ok(length),
        Err(refusal) if refusal == Refusal::ShortOutput => Err(refusal),
        Err(refusal) => show_refusal(u32::from(refusal), 0, out),
    }
}

// Writes the text of a file's case to a lent output, or that of the refusal, and answers its length. Refuses an output
// shorter than the text, and then touches nothing.
pub fn tidy(file: &[u8], out: &mut [u8]) -> Result<usize, Refusal>
    ensures { Tidied file.now out.old result out.new }
{
    let mut clauses = [0; Case::CLAUSE_WORDS];
    let mut constraints = [0; Case::CONSTRAINT_WORDS];
    let mut formula = [0; Case::FORMULA_BYTES];
    let mut names = [0; Case::NAME_BYTES];
    let mut prices = [0; Case::PRICES];
    let found = read(
        file,
        &mut clauses,
        &mut constraints,
        &mut formula,
        &mut names,
        &mut prices,
    );
    let c = match found {
        Ok(c) => c,
        Err(refused) => return show_refusal(u32::from(refused.refusal), refused.line, out),
    };
    let tables = LentTables {
        clauses: &clauses,
        constraints: &constraints,
        formula: &formula,
        names: &names,
        prices: &prices,
    };
    show_case(c, tables, out)
}
