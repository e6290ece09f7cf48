// Writing formulas.
ghost use Rattle.std.specs.Prelude.{[], ◌∷◌, ◌-◌, ◌≤◌, length, get_or};
ghost use Rattle.program.specs.Case.{name_size};
ghost use Rattle.text.specs.Tokens.{Token};
ghost use Rattle.formulas.specs.Sentence.{form_words};
ghost use Rattle.names.specs.Row.{name_in};
ghost use Rattle.output.specs.Writing.{Room};
ghost use Rattle.spelling.specs.Pen.{inked, Spells};
ghost use Rattle.writing.specs.Steps.{FormulaRoom, FormulaWritten};

use crate::body::open_word;
use spelling::{Pen, closing, name};

// The pen behind a formula, and the place of the nodes behind it.
#[derive(Clone, Copy)]
pub struct Step {
    pub pen: Pen,
    pub next: usize,
}

// Writes an opening bracket and the word of a node from 64 on.
fn form_word(out: &mut [u8], p: Pen, node: u8) -> Pen
    requires { (64 ≤ node) × (node ≤ 68)
        × Room (inked p (Token.opening ∷ (Token.word (get_or form_words (node - 64) []) ∷ []))) p.at }
    ensures { Spells (Token.opening ∷ (Token.word (get_or form_words (node - 64) []) ∷ [])) out.old p result
        out.new }
{
    match node {
        64 => open_word(out, p, b"not"),
        65 => open_word(out, p, b"and"),
        66 => open_word(out, p, b"or"),
        67 => open_word(out, p, b"then"),
        _ => open_word(out, p, b"same"),
    }
}

// Writes the formula at a place of the nodes.
pub fn formula(out: &mut [u8], p: Pen, nodes: &[u8], at: usize, names: &[u8]) -> Step
    requires { (name_size ≤ length names.now) × FormulaRoom (name_in names.now) nodes.now at p }
    ensures { FormulaWritten (name_in names.now) nodes.now at out.old p result
        out.new }
{
    let node = nodes[at];
    if node < 64 {
        let pen = name(out, p, names, node as usize);
        return Step { pen, next: at + 1 };
    }
    let opened = form_word(out, p, node);
    let a = formula(out, opened, nodes, at + 1, names);
    if node == 64 {
        let pen = closing(out, a.pen);
        return Step { pen, next: a.next };
    }
    let b = formula(out, a.pen, nodes, a.next, names);
    let pen = closing(out, b.pen);
    Step { pen, next: b.next }
}
