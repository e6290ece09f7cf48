// The atoms of literals.
ghost use Rattle.std.specs.Prelude.{◌≡◌, List, ◌≤◌, length, drop};
ghost use Rattle.std.proofs.Math.Option.{Option};
ghost use Rattle.program.specs.Case.{name_size};
ghost use Rattle.text.specs.Tokens.{tokens};
ghost use Rattle.grammar.specs.Line.{Literal};
ghost use Rattle.grammar.specs.Parsing.{body_in};
ghost use Rattle.names.specs.Row.{row_of};
ghost use Rattle.store.specs.Masks.{with_atom, with_literal, masks_by};

use crate::atom::atom_of;
use grammar::literal::{Lit, literal};

// The atoms of a body's plain and of its negated literals, bit i for atom i.
#[derive(Clone, Copy)]
pub struct Masks {
    pub plain: u64,
    pub negated: u64,
}

// A word with an atom below 64 added.
pub fn with_atom(w: u64, atom: usize) -> u64
    ensures { result ≡ with_atom w atom }
{
    if atom < 64 {
        w | words::single(atom as u32)
    } else {
        w
    }
}

// The atoms of literals with those of one more.
fn with_literal(m: Masks, negated: bool, atom: usize) -> Masks
    ensures { result ≡ with_literal m negated atom }
{
    if negated {
        Masks {
            negated: with_atom(m.negated, atom),
            ..m
        }
    } else {
        Masks {
            plain: with_atom(m.plain, atom),
            ..m
        }
    }
}

// The atoms of the literals from a place to the end of a line, by a table of count names.
pub fn masks_of(l: &[u8], at: usize, names: &[u8], count: usize) -> Masks
    requires { (count ≤ 64) × (name_size ≤ length names.now) }
    ensures { (ls : List Literal) → body_in (tokens (drop at l.now)) ≡ Option.some ls
        → result ≡ masks_by (row_of names.now count) ls }
{
    let mut i = at;
    let mut m = Masks {
        plain: 0,
        negated: 0,
    };
    while let Some(Lit::Literal(negated, a, e, next)) = literal(l, i) {
        m = with_literal(m, negated, atom_of(names, count, &l[a..e]));
        i = next;
    }
    m
}
