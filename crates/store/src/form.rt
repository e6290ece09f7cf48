// Storing what a form of a line says in the record and the tables.
ghost use Rattle.std.specs.Prelude.{◌≤◌, ◌<◌, length};
ghost use Rattle.program.specs.Case.{clause_size, constraint_size, formula_size, name_size};
ghost use Rattle.text.specs.Tokens.{tokens};
ghost use Rattle.grammar.specs.LineOf.{line_of};
ghost use Rattle.store.specs.Lent.{lent};
ghost use Rattle.store.specs.Held.{Long};
ghost use Rattle.store.specs.Stored.{ClauseStored, ConstraintStored, ObservedStored, QueryStored};
ghost use Rattle.store.specs.Stored.{Storable, StoredAs};

use crate::atom::atom_of;
use crate::formula_nodes::store_nodes;
use crate::masks::{Masks, masks_of};
use crate::price::{price_of, put_price};
use grammar::line::Form;
use program::case::Case;

// Stores a clause with a head, a kind and the atoms of its literals.
fn store_clause(
    head: &[u8],
    kind: usize,
    m: Masks,
    c: Case,
    names: &[u8],
    clauses: &mut [u64],
) -> Case
    requires { (c.atoms ≤ 64) × (c.clauses < 256) × (kind ≤ 2) × (name_size ≤ length names.now)
        × (clause_size ≤ length clauses.old) }
    ensures { ClauseStored head.now kind m c names.now clauses.old result
        clauses.new }
{
    let atom = atom_of(names, c.atoms, head);
    table::put_three(
        clauses,
        3 * c.clauses,
        (atom + 64 * kind) as u64,
        m.plain,
        m.negated,
    );
    Case {
        clauses: c.clauses + 1,
        ..c
    }
}

// Stores a constraint with the atoms of its literals and its kind.
fn store_constraint(m: Masks, kind: usize, c: Case, constraints: &mut [u64]) -> Case
    requires { (c.constraints < 32) × (constraint_size ≤ length constraints.old) }
    ensures { ConstraintStored m kind c constraints.old result constraints.new }
{
    let n = c.constraints;
    table::put_three(constraints, 3 * n, m.plain, m.negated, kind as u64);
    Case {
        constraints: n + 1,
        ..c
    }
}

// Adds observed literals to the record.
fn store_observed(m: Masks, c: Case) -> Case
    ensures { ObservedStored m c result }
{
    Case {
        plain: c.plain | m.plain,
        negated: c.negated | m.negated,
        ..c
    }
}

// Stores the nodes of the query at or behind a place of a line, in the part behind those in use.
fn store_query(l: &[u8], at: usize, c: Case, names: &[u8], formula: &mut [u8]) -> Case
    requires { (c.atoms ≤ 64) × (c.formulas < 16) × (name_size ≤ length names.now)
        × (formula_size ≤ length formula.old) }
    ensures { QueryStored l.now at c names.now formula.old result
        formula.new }
{
    let k = c.formulas;
    let part = &mut formula[Case::NODES * k..];
    let n = store_nodes(l, at, names, c.atoms, part);
    let mut next = c;
    next.formulas = k + 1;
    next.nodes[k] = n;
    next
}

// Stores what a line of a form, or of none, says. The tables are no struct of `&mut`s: one of these cannot be lent as
// a `&` through a `&mut` to the struct, which the borrow checker does not cover.
pub fn store_form(
    l: &[u8],
    x: Option<Form>,
    c: Case,
    names: &[u8],
    clauses: &mut [u64],
    constraints: &mut [u64],
    formula: &mut [u8],
    prices: &mut [u32],
) -> Case
    requires { Long (lent clauses.old constraints.old formula.old names.now prices.old)
        × Storable l.now x c (line_of (tokens l.now)) }
    ensures { StoredAs (line_of (tokens l.now)) c
        (lent clauses.old constraints.old formula.old names.now
        prices.old) result
        (lent clauses.new constraints.new formula.new names.now
        prices.new) }
{
    let Some(x) = x else {
        return c;
    };
    match x {
        Form::Skipped | Form::Atom(_, _) => c,
        Form::Clause(kind, a, e, _) => {
            let m = masks_of(l, e, names, c.atoms);
            store_clause(&l[a..e], kind, m, c, names, clauses)
        }
        Form::Constraint(kind, at, _) => {
            let m = masks_of(l, at, names, c.atoms);
            store_constraint(m, kind, c, constraints)
        }
        Form::Seen(at) => {
            let m = masks_of(l, at, names, c.atoms);
            store_observed(m, c)
        }
        Form::Query(at, _) => store_query(l, at, c, names, formula),
        Form::Cost(a, e, price, supplement) => {
            let atom = atom_of(names, c.atoms, &l[a..e]);
            put_price(prices, atom, price_of(price, supplement));
            c
        }
        Form::Edition(n) => Case { edition: n, ..c },
    }
}
