// The operation *report*.
ghost use Rattle.std.specs.Prelude.{◌≤◌, length};
ghost use Rattle.program.specs.Case.{name_size};
ghost use Rattle.wording.specs.Text.{answer_text, refusal_text};
ghost use Rattle.report.specs.Operation.{ReportShown, Reported};
ghost use Rattle.names.specs.Row.{name_in};
ghost use Rattle.output.specs.Writing.{Room};

use crate::show::{Shown, show};
use program::case::Case;
use program::cause::{Causes, causes_in, heads};
use program::clauses::Clauses;
use program::tables::Tables;
use question::operation::ask;
use reader::read::read;
use refusals::Refusal;
use wording::{Totals, answer_text, refusal_text};

// A refusal's number, and the line that it refuses.
#[derive(Clone, Copy)]
struct RefusalText {
    number: u32,
    line: u32,
}

impl Shown for RefusalText {
    ghost shown_as = { λ s. refusal_text s.number s.line };

    ghost can_write = { λ _. Unit {0} };

    fn write(&self, out: &mut [u8]) -> usize {
        refusal_text(out, self.number, self.line)
    }
}

// An answer: the numbers of its verdicts, its totals, and the settings that it lists, with the names and the causes.
#[derive(Clone, Copy)]
struct AnswerText<'a> {
    verdicts: &'a [u64],
    totals: Totals,
    names: &'a [u8],
    causes: Causes,
    list: &'a [u16],
}

impl Shown for AnswerText<'_> {
    ghost shown_as = { λ s. answer_text (name_in s.names.now) s.causes s.verdicts.now s.totals s.list.now };

    ghost can_write = { λ s. (name_size ≤ length s.names.now)
        × Room (answer_text (name_in s.names.now) s.causes s.verdicts.now s.totals s.list.now) 0 };

    fn write(&self, out: &mut [u8]) -> usize {
        answer_text(
            out,
            self.verdicts,
            self.totals,
            self.names,
            self.causes,
            self.list,
        )
    }
}

// Writes the text of a refusal, unless the output is too short.
pub fn show_refusal(number: u32, line: u32, out: &mut [u8]) -> Result<usize, Refusal>
    ensures { ReportShown (refusal_text number line) out.old result out.new }
{
    show(&RefusalText { number, line }, out)
}

// Writes the report of a file's bytes to a lent output, and answers its length. Refuses an output shorter than the
// report, and then touches nothing.
pub fn report(file: &[u8], out: &mut [u8]) -> Result<usize, Refusal>
    ensures { Reported file.now out.old result out.new }
{
    let mut clauses = [0; Case::CLAUSE_WORDS];
    let mut constraints = [0; Case::CONSTRAINT_WORDS];
    let mut formula = [0; Case::FORMULA_BYTES];
    let mut names = [0; Case::NAME_BYTES];
    let mut prices = [0; Case::PRICES];
    let mut list = [0; 1024];
    let mut work = [0; 59049];
    let found = read(
        file,
        &mut clauses,
        &mut constraints,
        &mut formula,
        &mut names,
        &mut prices,
    );
    let c = match found {
        Ok(c) => c,
        Err(refused) => return show_refusal(u32::from(refused.refusal), refused.line, out),
    };
    let tables = Tables {
        clauses: &clauses,
        constraints: &constraints,
        formula: &formula,
    };
    let a = ask(c, tables, &prices, &mut list, &mut work).unwrap();
    let words = Clauses {
        words: &clauses,
        count: c.clauses,
    };
    let causes = causes_in(c.edition, c.atoms, words, heads(words));
    let answer = AnswerText {
        verdicts: &a.verdicts[..c.formulas],
        totals: Totals {
            rounds: a.rounds,
            decided: a.decided,
            minimal: a.minimal,
            cost: a.cost,
        },
        names: &names,
        causes,
        list: &list[..a.written],
    };
    show(&answer, out)
}
