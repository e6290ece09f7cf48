// The operation *write*.
ghost use Rattle.store.specs.LentTables.{lent_of};
ghost use Rattle.writing.specs.Operation.{WrittenAs};

use crate::lines::case_lines;
use crate::writable::is_writable;
use program::case::Case;
use reader::read::tables_fit;
use refusals::Refusal;
use store::lent::LentTables;

// Writes a case as a file to a lent output, and answers its length in bytes. Refuses a lent table shorter than its
// size, then a case that isn't sound, a name that is none or is there twice or a price over 2,000,000, then a line over
// 200 bytes or a text over 32,768, then an output shorter than the text, and then touches nothing.
pub fn write(c: Case, t: LentTables, out: &mut [u8]) -> Result<usize, Refusal>
    ensures { WrittenAs c (lent_of t.entry) out.old result out.new }
{
    if !tables_fit(t) {
        return Err(Refusal::ShortTable);
    }
    if !is_writable(c, t) {
        return Err(Refusal::Unsound);
    }
    let page = case_lines(&mut [0; 1], c, t);
    if page.long || 32768 < page.at {
        return Err(Refusal::LongText);
    }
    if out.len() < page.at {
        return Err(Refusal::ShortOutput);
    }
    case_lines(out, c, t);
    Ok(page.at)
}
