// Writing a line of each kind.
ghost use Rattle.std.specs.Prelude.{◌≡◌, [], ◌∷◌, ◌+◌, ◌/◌, ◌%◌, ◌≤◌, ◌<◌, length, get_or};
ghost use Rattle.logic.specs.Nodes.{Spelling, spelled, formula_of};
ghost use Rattle.program.specs.Case.{name_size};
ghost use Rattle.text.specs.Spelled.{text_of};
ghost use Rattle.grammar.specs.Line.{Line, Literal, line_words};
ghost use Rattle.names.specs.Row.{name_in};
ghost use Rattle.output.specs.Decimal.{decimal};
ghost use Rattle.output.specs.Writing.{Room};
ghost use Rattle.spelling.specs.Pen.{inked, Spells};
ghost use Rattle.spelling.specs.Page.{start_of, Sets};
ghost use Rattle.writing.specs.Lines.{literals_for, query_line, line_text};
ghost use Rattle.writing.specs.Steps.{opened_by, Closes};

use crate::body::{body, literal, open_word};
use crate::formula::formula;
use spelling::{Page, Pen, closing, end_line, name, number, word};

// Writes what a line begins with: an opening bracket and its word.
pub fn begin(out: &mut [u8], g: Page, text: &[u8]) -> Pen
    requires { Room (inked (start_of g) (opened_by text.now)) g.at }
    ensures { Spells (opened_by text.now) out.old (start_of g) result out.new }
{
    let start = Pen {
        at: g.at,
        behind: false,
    };
    open_word(out, start, text)
}

// Writes what a clause of a kind begins with.
pub fn begin_clause(out: &mut [u8], g: Page, kind: u64) -> Pen
    requires { (kind ≤ 2) × Room (inked (start_of g) (opened_by (get_or line_words kind []))) g.at }
    ensures { Spells (opened_by (get_or line_words kind [])) out.old (start_of g) result out.new }
{
    match kind {
        0 => begin(out, g, b"true"),
        1 => begin(out, g, b"false"),
        _ => begin(out, g, b"if"),
    }
}

// Writes what a constraint of a kind begins with.
fn begin_constraint(out: &mut [u8], g: Page, kind: u64) -> Pen
    requires { (kind < 2) × Room (inked (start_of g) (opened_by (get_or line_words (3 + kind) []))) g.at }
    ensures { Spells (opened_by (get_or line_words (3 + kind) [])) out.old (start_of g) result
        out.new }
{
    match kind {
        0 => begin(out, g, b"never"),
        _ => begin(out, g, b"avoid"),
    }
}

// Writes what the line that started at a page ends with: a closing bracket and LF.
pub fn close(out: &mut [u8], g: Page, p: Pen) -> Page
    requires { (g.at ≤ p.at) × Room (41 ∷ (10 ∷ [])) p.at }
    ensures { Closes g p out.old result out.new }
{
    let q = closing(out, p);
    end_line(out, g, q)
}

// Writes the line that names an atom.
pub fn atom_line(out: &mut [u8], g: Page, name: &[u8]) -> Page
    requires { Room (text_of (line_text (Line.atom name.now) ∷ [])) g.at }
    ensures { Sets (line_text (Line.atom name.now) ∷ []) out.old g result out.new }
{
    let p = begin(out, g, b"atom");
    let q = word(out, p, name);
    close(out, g, q)
}

// Writes the line of an edition.
pub fn edition_line(out: &mut [u8], g: Page, edition: usize) -> Page
    requires { (edition < 10) × Room (text_of (line_text (Line.edition edition) ∷ [])) g.at }
    ensures { Sets (line_text (Line.edition edition) ∷ []) out.old g result out.new }
{
    let p = begin(out, g, b"edition");
    let q = number(out, p, edition as u64);
    close(out, g, q)
}

// Writes the line of a clause, by its three words.
pub fn clause_line(
    out: &mut [u8],
    g: Page,
    names: &[u8],
    first: u64,
    plain: u64,
    negated: u64,
) -> Page
    requires { (first / 64 ≤ 2) × (name_size ≤ length names.now)
        × Room (text_of (line_text (Line.clause (first / 64) (name_in names.now (first % 64))
        (literals_for (name_in names.now) plain negated)) ∷ [])) g.at }
    ensures { Sets (line_text (Line.clause (first / 64) (name_in names.now (first % 64))
        (literals_for (name_in names.now) plain negated)) ∷ [])
        out.old g result out.new }
{
    let p = begin_clause(out, g, first / 64);
    let q = name(out, p, names, (first % 64) as usize);
    let s = body(out, q, names, plain, negated);
    close(out, g, s)
}

// Writes the line of a constraint, by its three words.
pub fn constraint_line(
    out: &mut [u8],
    g: Page,
    names: &[u8],
    plain: u64,
    negated: u64,
    kind: u64,
) -> Page
    requires { (kind < 2) × (name_size ≤ length names.now)
        × Room (text_of (line_text (Line.constraint kind (literals_for (name_in names.now) plain negated)) ∷ []))
        g.at }
    ensures { Sets
        (line_text (Line.constraint kind (literals_for (name_in names.now) plain negated)) ∷ [])
        out.old g result out.new }
{
    let p = begin_constraint(out, g, kind);
    let q = body(out, p, names, plain, negated);
    close(out, g, q)
}

// Writes the line of an observed literal, on the atom with a name.
pub fn seen_line(out: &mut [u8], g: Page, name: &[u8], negated: bool) -> Page
    requires { Room (text_of (line_text (Line.seen (Literal.literal negated name.now)) ∷ [])) g.at }
    ensures { Sets (line_text (Line.seen (Literal.literal negated name.now)) ∷ []) out.old g result
        out.new }
{
    let p = begin(out, g, b"seen");
    let q = literal(out, p, name, negated);
    close(out, g, q)
}

// Writes the line of a query, by the nodes of its formula.
pub fn query_line(out: &mut [u8], g: Page, names: &[u8], nodes: &[u8]) -> Page
    requires { (name_size ≤ length names.now)
        × (spelled nodes.now ≡ Spelling.formulas (formula_of nodes.now ∷ []))
        × Room (text_of (line_text (query_line (name_in names.now) (formula_of nodes.now)) ∷ [])) g.at }
    ensures { Sets (line_text (query_line (name_in names.now) (formula_of nodes.now)) ∷ [])
        out.old g result out.new }
{
    let p = begin(out, g, b"query");
    let s = formula(out, p, nodes, 0, names);
    close(out, g, s.pen)
}

// Writes the line of the price of the atom with a name.
pub fn cost_line(out: &mut [u8], g: Page, name: &[u8], price: u32) -> Page
    requires { Room (text_of (line_text (Line.cost name.now (decimal price) (decimal 0)) ∷ [])) g.at }
    ensures { Sets (line_text (Line.cost name.now (decimal price) (decimal 0)) ∷ []) out.old g
        result out.new }
{
    let p = begin(out, g, b"cost");
    let q = word(out, p, name);
    let s = number(out, q, price as u64);
    let u = number(out, s, 0);
    close(out, g, u)
}
