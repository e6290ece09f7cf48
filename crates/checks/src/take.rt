// Taking a line: its checks, and what it adds to the record and the tables.
ghost use Rattle.std.specs.Prelude.{◌≡◌, ◌&&◌, ℕ, ◌≤◌, ltb, length, unwrap_or};
ghost use Rattle.words.specs.Bits.{has};
ghost use Rattle.words.specs.Choice.{first_failed};
ghost use Rattle.refusals.specs.Refusal.{refused_as};
ghost use Rattle.program.specs.Case.{name_size};
ghost use Rattle.text.specs.Tokens.{tokens};
ghost use Rattle.text.specs.Words.{names_in};
ghost use Rattle.store.specs.Lent.{lent};
ghost use Rattle.store.specs.Held.{Long, InLimits};
ghost use Rattle.store.specs.Masks.{with_atom};
ghost use Rattle.checks.specs.Checks.{price_fits, text_checks, room_checks};
ghost use Rattle.checks.specs.Looked.{Formed};
ghost use Rattle.checks.specs.Progress.{Bounded, CostAtomIs};
ghost use Rattle.checks.specs.Took.{FormTaken, LineTaken};

use crate::look::{Looked, look};
use crate::progress::{Progress, is_costed};
use grammar::brings::Brings;
use grammar::line::{Form, brings};
use program::case::Case;
use refusals::Refusal;
use store::atom::atom_of;
use store::form::store_form;
use store::masks::with_atom;
use store::price::price_of;

// The checks 6, 7 and 20 of a line that brings something.
fn check_text(l: &[u8], b: Brings) -> Result<(), Refusal>
    ensures { refused_as result ≡ first_failed (text_checks (names_in (tokens l.now)) b) }
{
    if names::some_long(l) {
        return Err(Refusal::LongName);
    }
    if b.depth > 16 {
        return Err(Refusal::DeepFormula);
    }
    if b.literals > 11 {
        return Err(Refusal::ManyLiterals);
    }
    Ok(())
}

// Whether a price, the price worked out with a supplement, and the supplement pass check 16.
fn price_fits(price: usize, supplement: usize) -> bool
    ensures { result ≡ price_fits price supplement }
{
    price <= 2000000 && supplement <= 100 && price_of(price, supplement) <= 2000000
}

// The checks 9, 16, 17 and 10 of a line with at most 64 names; second tells whether it is a second cost.
fn check_room(b: Brings, c: Case, second: bool) -> Result<(), Refusal>
    requires { InLimits c }
    ensures { (atoms : ℕ) → atoms ≤ 64
        → refused_as result ≡ first_failed (room_checks atoms c.clauses c.constraints c.formulas second b) }
{
    if b.clauses > Case::CLAUSES - c.clauses {
        return Err(Refusal::ManyRules);
    }
    if b.constraints > Case::CONSTRAINTS - c.constraints {
        return Err(Refusal::ManyRules);
    }
    if !price_fits(b.price, b.supplement) {
        return Err(Refusal::HighPrice);
    }
    if second {
        return Err(Refusal::SecondCost);
    }
    if b.queries > Case::FORMULAS - c.formulas {
        return Err(Refusal::ManyQueries);
    }
    Ok(())
}

// The atom of the name of a cost by a table of count names, where a line is a cost.
fn cost_atom(l: &[u8], x: Form, names: &[u8], count: usize) -> Option<usize>
    requires { Formed l.now x × (count ≤ 64) × (name_size ≤ length names.now) }
    ensures { CostAtomIs l.now names.now count result }
{
    match x {
        Form::Cost(a, e, _, _) => Some(atom_of(names, count, &l[a..e])),
        _ => None,
    }
}

// Whether the atom of a line is one of those with a cost line.
fn is_second(costed: u64, atom: Option<usize>) -> bool
    ensures { result ≡ (ltb (unwrap_or atom 64) 64 && has costed (unwrap_or atom 64)) }
{
    match atom {
        Some(a) => is_costed(costed, a),
        None => false,
    }
}

// The atoms with a cost line, with that of a line.
fn with_cost(costed: u64, atom: Option<usize>) -> u64
    ensures { result ≡ with_atom costed (unwrap_or atom 64) }
{
    match atom {
        Some(a) => with_atom(costed, a),
        None => costed,
    }
}

// Takes a line by its form: the checks from 6 on, then stores it. The tables are apart as in `store_form`.
fn take_form(
    l: &[u8],
    x: Form,
    p: Progress,
    clauses: &mut [u64],
    constraints: &mut [u64],
    formula: &mut [u8],
    names: &mut [u8],
    prices: &mut [u32],
) -> Result<Progress, Refusal>
    requires { Long (lent clauses.old constraints.old formula.old names.old prices.old)
        × Bounded p × Formed l.now x }
    ensures { FormTaken l.now p
        (lent clauses.old constraints.old formula.old names.old
        prices.old) result
        (lent clauses.new constraints.new formula.new names.new
        prices.new) }
{
    let b = brings(Some(x));
    check_text(l, b)?;
    let c = p.found;
    let Some(atoms) = names::intern_line(l, names, c.atoms) else {
        return Err(Refusal::ManyNames);
    };
    let atom = cost_atom(l, x, names, atoms);
    check_room(b, c, is_second(p.costed, atom))?;
    if b.editions > 1 - p.editions {
        return Err(Refusal::SecondEdition);
    }
    let named = Case { atoms, ..c };
    let found = store_form(
        l,
        Some(x),
        named,
        names,
        clauses,
        constraints,
        formula,
        prices,
    );
    Ok(Progress {
        found,
        costed: with_cost(p.costed, atom),
        editions: p.editions + b.editions,
    })
}

// Takes a line: looks at it, then takes it by its form. The tables are apart as in `store_form`.
pub fn take_line(
    l: &[u8],
    p: Progress,
    clauses: &mut [u64],
    constraints: &mut [u64],
    formula: &mut [u8],
    names: &mut [u8],
    prices: &mut [u32],
) -> Result<Progress, Refusal>
    requires { Long (lent clauses.old constraints.old formula.old names.old prices.old)
        × Bounded p }
    ensures { LineTaken l.now p
        (lent clauses.old constraints.old formula.old names.old
        prices.old) result
        (lent clauses.new constraints.new formula.new names.new
        prices.new) }
{
    match look(l)? {
        Looked::Comment => Ok(p),
        Looked::Line(x) => take_form(l, x, p, clauses, constraints, formula, names, prices),
    }
}
