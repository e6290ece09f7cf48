// The operation *read*.
ghost use Rattle.std.specs.Prelude.{◌≡◌, ◌≤◌, length};
ghost use Rattle.refusals.specs.Refusal.{refused_as};
ghost use Rattle.store.specs.Lent.{lent};
ghost use Rattle.store.specs.LentTables.{lent_of};
ghost use Rattle.store.specs.Held.{Long};
ghost use Rattle.reader.specs.Answers.{of_no_line};
ghost use Rattle.reader.specs.Operation.{tables_fit, early_refusal, ReadAs};
ghost use Rattle.reader.specs.Steps.{end_refusal_in, Countable, Zeroed, Ready, FileTaken, LinesRead};

use checks::progress::Progress;
use checks::take::take_line;
use program::case::{Case, tables_full};
use program::clauses::Clauses;
use program::sound::settings_few;
use refusals::Refusal;
use store::lent::LentTables;

// Why a file is not read, and the line that is refused, counted from 1, or 0 where it is none.
#[derive(Clone, Copy)]
pub struct Refused {
    pub refusal: Refusal,
    pub line: u32,
}

impl From<Refusal> for Refused {
    ghost from_gives = { λ r e. e ≡ of_no_line r };

    fn from(refusal: Refusal) -> Refused {
        Refused { refusal, line: 0 }
    }
}

// The record before the first line: zeros, and edition 1.
const NOTHING_READ: Case = Case {
    atoms: 0,
    clauses: 0,
    constraints: 0,
    formulas: 0,
    plain: 0,
    negated: 0,
    nodes: [0; 16],
    edition: 1,
};

// Zeroes the five tables in their sizes.
fn zero(
    clauses: &mut [u64],
    constraints: &mut [u64],
    formula: &mut [u8],
    names: &mut [u8],
    prices: &mut [u32],
)
    requires { Long (lent clauses.old constraints.old formula.old names.old prices.old) }
    ensures { Zeroed
        (lent clauses.old constraints.old formula.old names.old
        prices.old)
        (lent clauses.new constraints.new formula.new names.new
        prices.new) }
{
    clauses[..Case::CLAUSE_WORDS].fill(0);
    constraints[..Case::CONSTRAINT_WORDS].fill(0);
    formula[..Case::FORMULA_BYTES].fill(0);
    names[..Case::NAME_BYTES].fill(0);
    prices[..Case::PRICES].fill(0);
}

// The checks after the last line: 11 no query, 12 more than 59,049 settings.
fn check_end(c: Case, clauses: &[u64]) -> Result<(), Refusal>
    requires { Countable c clauses.now }
    ensures { refused_as result ≡ end_refusal_in c clauses.now }
{
    if c.formulas == 0 {
        return Err(Refusal::NoQuery);
    }
    let table = Clauses {
        words: clauses,
        count: c.clauses,
    };
    if !settings_few(c.edition, c.atoms, table) {
        return Err(Refusal::ManySettings);
    }
    Ok(())
}

// Reads a file of at most 32,768 bytes into tables that hold nothing, up to the first refusal.
fn take_lines(
    file: &[u8],
    clauses: &mut [u64],
    constraints: &mut [u64],
    formula: &mut [u8],
    names: &mut [u8],
    prices: &mut [u32],
) -> Result<Case, Refused>
    requires { Ready file.now (lent clauses.old constraints.old formula.old names.old
        prices.old) }
    ensures { FileTaken file.now
        (lent clauses.old constraints.old formula.old names.old
        prices.old)
        (lent clauses.new constraints.new formula.new names.new
        prices.new) result }
{
    let mut p = Progress {
        found: NOTHING_READ,
        costed: 0,
        editions: 0,
    };
    let mut at = 0;
    let mut line: u32 = 1;
    // No `split` at LF: behind the last one it would give a line more.
    while at < file.len() {
        let e = text::lines::line_end(file, at);
        match take_line(
            &file[at..e],
            p,
            clauses,
            constraints,
            formula,
            names,
            prices,
        ) {
            Ok(next) => p = next,
            Err(refusal) => return Err(Refused { refusal, line }),
        }
        at = e + 1;
        line += 1;
    }
    check_end(p.found, clauses)?;
    Ok(p.found)
}

// Reads a file of at most 32,768 bytes into tables of full size, which a refusal leaves zero in their sizes.
fn read_lines(
    file: &[u8],
    clauses: &mut [u64],
    constraints: &mut [u64],
    formula: &mut [u8],
    names: &mut [u8],
    prices: &mut [u32],
) -> Result<Case, Refused>
    requires { Long (lent clauses.old constraints.old formula.old names.old prices.old)
        × (length file.now ≤ 32768) }
    ensures { LinesRead file.now
        (lent clauses.old constraints.old formula.old names.old
        prices.old)
        (lent clauses.new constraints.new formula.new names.new
        prices.new) result }
{
    zero(clauses, constraints, formula, names, prices);
    let answer = take_lines(file, clauses, constraints, formula, names, prices);
    if answer.is_err() {
        zero(clauses, constraints, formula, names, prices);
    }
    answer
}

// Whether the five tables are as long as their sizes.
#[tactic(auto, unfolding(crate::specs::Operation::tables_fit))]
pub fn tables_fit(t: LentTables) -> bool
    ensures { result ≡ tables_fit (lent_of t.entry) }
{
    tables_full(t.tables()) && t.names.len() >= Case::NAME_BYTES && t.prices.len() >= Case::PRICES
}

// The checks before the first line: 1 a table shorter than its size, 2 a file over 32,768 bytes.
#[tactic(auto, unfolding(crate::specs::Operation::early_refusal))]
fn check_start(file: &[u8], t: LentTables) -> Result<(), Refusal>
    ensures { refused_as result ≡ early_refusal file.now (lent_of t.entry) }
{
    if !tables_fit(t) {
        return Err(Refusal::ShortTable);
    }
    if file.len() > 32768 {
        return Err(Refusal::LongFile);
    }
    Ok(())
}

// Reads a case file into five lent tables. Refuses with 1 a table shorter than its size, with 2 a file over 32,768
// bytes, both of which touch nothing; with 3 to 10, 16, 17, 20 and 21 the first bad line, with 11 a file without query,
// with 12 one with more than 59,049 settings, each of which leaves the tables zero in their sizes.
pub fn read(
    file: &[u8],
    clauses: &mut [u64],
    constraints: &mut [u64],
    formula: &mut [u8],
    names: &mut [u8],
    prices: &mut [u32],
) -> Result<Case, Refused>
    ensures { ReadAs file.now
        (lent clauses.old constraints.old formula.old names.old
        prices.old)
        (lent clauses.new constraints.new formula.new names.new
        prices.new) result }
{
    let lent = LentTables {
        clauses,
        constraints,
        formula,
        names,
        prices,
    };
    check_start(file, lent)?;
    read_lines(file, clauses, constraints, formula, names, prices)
}
