// The soundness of a case: every phrase of document 01, "Case tables and sound cases".
ghost use Rattle.std.specs.Prelude.{◌≡◌, true, ◌+◌, ◌*◌, ◌≤◌, ◌<◌, length};
ghost use Rattle.program.specs.Case.{formula_size, tables_full};
ghost use Rattle.program.specs.Sound.{limits_hold, bare, shaped, within, sound_clause};
ghost use Rattle.program.specs.Sound.{sound_clauses, sound_constraint, sound_constraints, few_settings};
ghost use Rattle.program.specs.Sound.{sound_formula, sound_formulas, sound};

use crate::case::{Atoms, Case};
use crate::cause;
use crate::clause::Clause;
use crate::clauses::Clauses;
use crate::tables::Tables;

// Whether the counts are within the limits, and the edition is one there is.
#[tactic(auto, unfolding(crate::specs::Sound::limits_hold))]
pub fn limits_hold(c: Case) -> bool
    ensures { result ≡ limits_hold c }
{
    1 <= c.atoms
        && c.atoms <= Case::ATOMS
        && c.clauses <= Case::CLAUSES
        && c.constraints <= Case::CONSTRAINTS
        && 1 <= c.formulas
        && c.formulas <= Case::FORMULAS
        && 1 <= c.edition
        && c.edition <= Case::EDITIONS
}

// Whether a body has no literal.
pub fn is_bare(plain: u64, negated: u64) -> bool
    ensures { result ≡ bare plain negated }
{
    plain == 0 && negated == 0
}

// Whether a clause of a kind may have no literal, or some.
pub fn is_shaped(kind: u64, none: bool) -> bool
    ensures { result ≡ shaped kind none }
{
    match kind {
        0 | 1 => none,
        2 => !none,
        _ => false,
    }
}

// Whether every bit of two words names one of the atoms.
#[tactic(auto, unfolding(crate::specs::Sound::within))]
pub fn is_within(atoms: Atoms, plain: u64, negated: u64) -> bool
    ensures { result ≡ within atoms.count plain negated }
{
    plain <= atoms.all && negated <= atoms.all
}

// Whether a clause is sound.
#[tactic(auto, unfolding(crate::specs::Sound::sound_clause))]
pub fn clause_sound(atoms: Atoms, clause: Clause) -> bool
    ensures { result ≡ sound_clause atoms.count (clause.head + 64 * clause.kind) clause.plain clause.negated }
{
    (clause.head as usize) < atoms.count
        && is_within(atoms, clause.plain, clause.negated)
        && is_shaped(clause.kind, is_bare(clause.plain, clause.negated))
}

// Whether the clauses are sound.
#[tactic(auto, unfolding(crate::specs::Sound::sound_clauses))]
pub fn clauses_sound(atoms: Atoms, clauses: Clauses) -> bool
    ensures { result ≡ sound_clauses atoms.count clauses.entry.words.now clauses.entry.count }
{
    // A loop, since a closure would have to repeat the bounds: the same holds of the loops below.
    for k in 0..clauses.count {
        if !clause_sound(atoms, clauses.at(k)) {
            return false;
        }
    }
    true
}

// Whether a constraint's three words are sound.
#[tactic(auto, unfolding(crate::specs::Sound::sound_constraint))]
pub fn constraint_sound(atoms: Atoms, plain: u64, negated: u64, kind: u64) -> bool
    ensures { result ≡ sound_constraint atoms.count plain negated kind }
{
    is_within(atoms, plain, negated) && !is_bare(plain, negated) && kind < 2
}

// Whether the first n constraints are sound.
#[tactic(auto, unfolding(crate::specs::Sound::sound_constraints))]
pub fn constraints_sound(atoms: Atoms, constraints: &[u64], n: usize) -> bool
    requires { (n ≤ 32) × (3 * n ≤ length constraints.now) }
    ensures { result ≡ sound_constraints atoms.count constraints.now n }
{
    for k in 0..n {
        if !constraint_sound(
            atoms,
            constraints[3 * k],
            constraints[3 * k + 1],
            constraints[3 * k + 2],
        ) {
            return false;
        }
    }
    true
}

// Whether there are at most 59,049 settings in an edition, of a number of atoms with the clauses.
pub fn settings_few(edition: usize, atoms: usize, clauses: Clauses) -> bool
    requires { (1 ≤ atoms) × (atoms ≤ 64) }
    ensures { result ≡ few_settings edition atoms clauses.entry.words.now clauses.entry.count }
{
    let heads = cause::heads(clauses);
    let causes = cause::causes_in(edition, atoms, clauses, heads);
    cause::settings(causes) <= Case::SETTINGS
}

// Whether formula q is sound; nodes has the node count of each formula.
#[tactic(auto, unfolding(crate::specs::Sound::sound_formula))]
pub fn formula_sound(atoms: usize, nodes: &[usize; 16], formula: &[u8], q: usize) -> bool
    requires { (q < 16) × (formula_size ≤ length formula.now) }
    ensures { result ≡ sound_formula atoms nodes.now formula.now q }
{
    let n = nodes[q];
    let at = Case::NODES * q;
    n <= Case::NODES && nodes::formula::one_formula(&formula[at..at + n], atoms)
}

// Whether the first n formulas are sound; nodes has the node count of each.
#[tactic(auto, unfolding(crate::specs::Sound::sound_formulas))]
pub fn formulas_sound(atoms: usize, nodes: &[usize; 16], formula: &[u8], n: usize) -> bool
    requires { (n ≤ 16) × (formula_size ≤ length formula.now) }
    ensures { result ≡ sound_formulas atoms nodes.now formula.now n }
{
    for q in 0..n {
        if !formula_sound(atoms, nodes, formula, q) {
            return false;
        }
    }
    true
}

// Whether a case is sound, where its lent tables have their full sizes.
#[tactic(auto, unfolding(crate::specs::Sound::sound))]
pub fn is_sound(c: Case, t: Tables) -> bool
    requires { tables_full t.clauses.now t.constraints.now t.formula.now ≡ true }
    ensures { result ≡ sound c t.entry.clauses.now t.entry.constraints.now t.entry.formula.now }
{
    if !limits_hold(c) {
        return false;
    }
    let clauses = Clauses {
        words: t.clauses,
        count: c.clauses,
    };
    let atoms = Atoms::below(c.atoms);
    clauses_sound(atoms, clauses)
        && constraints_sound(atoms, t.constraints, c.constraints)
        && is_within(atoms, c.plain, c.negated)
        && settings_few(c.edition, c.atoms, clauses)
        && formulas_sound(c.atoms, &c.nodes, t.formula, c.formulas)
}
