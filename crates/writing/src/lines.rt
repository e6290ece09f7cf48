// Writing the lines of a case.
ghost use Rattle.std.specs.Prelude.{◌+◌, ◌*◌, ◌≤◌, ◌<◌, length};
ghost use Rattle.program.specs.Case.{name_size, formula_size, price_size};
ghost use Rattle.text.specs.Spelled.{text_of};
ghost use Rattle.store.specs.LentTables.{lent_of};
ghost use Rattle.output.specs.Writing.{Room};
ghost use Rattle.spelling.specs.Page.{Sets};
ghost use Rattle.writing.specs.Operation.{case_lines, case_text};
ghost use Rattle.writing.specs.Steps.{atom_texts, edition_texts, clause_texts, constraint_texts, seen_texts};
ghost use Rattle.writing.specs.Steps.{query_texts, priced_text, cost_texts, KindsSound, BarsSound, QueriesSound};
ghost use Rattle.writing.specs.Steps.{Fit, first_page};

use crate::line::{
    atom_line, clause_line, constraint_line, cost_line, edition_line, query_line, seen_line,
};
use output::name_of;
use program::case::Case;
use program::clauses::Clauses;
use spelling::Page;
use store::lent::LentTables;
use words::walk::bits_of;

// Writes the lines that name the first n atoms.
fn atom_lines(out: &mut [u8], g: Page, names: &[u8], n: usize) -> Page
    requires { (n ≤ 64) × (name_size ≤ length names.now) × Room (text_of (atom_texts names.now n)) g.at }
    ensures { Sets (atom_texts names.now n) out.old g result out.new }
{
    let mut page = g;
    for a in 0..n {
        page = atom_line(out, page, name_of(names, a));
    }
    page
}

// Writes the line of an edition, where it is 2.
fn edition_lines(out: &mut [u8], g: Page, edition: usize) -> Page
    requires { Room (text_of (edition_texts edition)) g.at }
    ensures { Sets (edition_texts edition) out.old g result out.new }
{
    if edition != 2 {
        return g;
    }
    edition_line(out, g, edition)
}

// Writes the lines of the clauses.
fn clause_lines(out: &mut [u8], g: Page, names: &[u8], clauses: Clauses) -> Page
    requires { (name_size ≤ length names.now) × KindsSound clauses.words.now clauses.count
        × Room (text_of (clause_texts names.now clauses.words.now clauses.count)) g.at }
    ensures { Sets (clause_texts names.now clauses.entry.words.now clauses.entry.count) out.old g result
        out.new }
{
    let words = clauses.words;
    let mut page = g;
    for k in 0..clauses.count {
        let at = 3 * k;
        page = clause_line(out, page, names, words[at], words[at + 1], words[at + 2]);
    }
    page
}

// Writes the lines of the first n constraints.
fn constraint_lines(out: &mut [u8], g: Page, names: &[u8], constraints: &[u64], n: usize) -> Page
    requires { (n ≤ 32) × (name_size ≤ length names.now) × (3 * n ≤ length constraints.now)
        × BarsSound constraints.now n
        × Room (text_of (constraint_texts names.now constraints.now n)) g.at }
    ensures { Sets (constraint_texts names.now constraints.now n) out.old g result
        out.new }
{
    let words = constraints;
    let mut page = g;
    for k in 0..n {
        let at = 3 * k;
        page = constraint_line(out, page, names, words[at], words[at + 1], words[at + 2]);
    }
    page
}

// Writes the lines of the observed literals on the atoms of a word, in atom order.
fn seen_lines(out: &mut [u8], g: Page, names: &[u8], atoms: u64, negated: bool) -> Page
    requires { (name_size ≤ length names.now)
        × Room (text_of (seen_texts names.now negated atoms)) g.at }
    ensures { Sets (seen_texts names.now negated atoms) out.old g result out.new }
{
    let mut page = g;
    for a in bits_of(atoms) {
        let name = name_of(names, a as usize);
        page = seen_line(out, page, name, negated);
    }
    page
}

// Writes the lines of the first n queries; nodes has the node count of each.
fn query_lines(
    out: &mut [u8],
    g: Page,
    names: &[u8],
    nodes: &[usize; 16],
    formula: &[u8],
    n: usize,
) -> Page
    requires { (n ≤ 16) × (name_size ≤ length names.now) × (formula_size ≤ length formula.now)
        × QueriesSound nodes.now formula.now n
        × Room (text_of (query_texts names.now nodes.now formula.now n)) g.at }
    ensures { Sets (query_texts names.now nodes.now formula.now n)
        out.old g result out.new }
{
    let mut page = g;
    for q in 0..n {
        let at = Case::NODES * q;
        let end = at + nodes[q];
        page = query_line(out, page, names, &formula[at..end]);
    }
    page
}

// Writes the line of an atom's price, where it is above 0.
fn priced_line(out: &mut [u8], g: Page, names: &[u8], prices: &[u32], atom: usize) -> Page
    requires { (16 * atom + 16 ≤ length names.now) × (atom < length prices.now)
        × Room (text_of (priced_text names.now prices.now atom)) g.at }
    ensures { Sets (priced_text names.now prices.now atom) out.old g result
        out.new }
{
    let price = prices[atom];
    if price == 0 {
        return g;
    }
    cost_line(out, g, name_of(names, atom), price)
}

// Writes the lines of the prices above 0 of the first n atoms.
fn cost_lines(out: &mut [u8], g: Page, names: &[u8], prices: &[u32], n: usize) -> Page
    requires { (n ≤ 64) × (name_size ≤ length names.now) × (price_size ≤ length prices.now)
        × Room (text_of (cost_texts names.now prices.now n)) g.at }
    ensures { Sets (cost_texts names.now prices.now n) out.old g result
        out.new }
{
    let mut page = g;
    for atom in 0..n {
        page = priced_line(out, page, names, prices, atom);
    }
    page
}

// Writes the lines of a case from the output's first byte on.
pub fn case_lines(out: &mut [u8], c: Case, t: LentTables) -> Page
    requires { Fit c (lent_of t) × Room (case_text c (lent_of t)) 0 }
    ensures { Sets (case_lines c (lent_of t.entry)) out.old first_page result out.new }
{
    let clauses = Clauses {
        words: t.clauses,
        count: c.clauses,
    };
    let nodes = c.nodes;
    let first = Page { at: 0, long: false };
    let named = atom_lines(out, first, t.names, c.atoms);
    let edited = edition_lines(out, named, c.edition);
    let ruled = clause_lines(out, edited, t.names, clauses);
    let bounded = constraint_lines(out, ruled, t.names, t.constraints, c.constraints);
    let seen = seen_lines(out, bounded, t.names, c.plain, false);
    let observed = seen_lines(out, seen, t.names, c.negated, true);
    let asked = query_lines(out, observed, t.names, &nodes, t.formula, c.formulas);
    cost_lines(out, asked, t.names, t.prices, c.atoms)
}
