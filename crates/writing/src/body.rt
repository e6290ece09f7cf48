// Writing literals.
ghost use Rattle.std.specs.Prelude.{[], ◌∷◌, ◌≤◌, length};
ghost use Rattle.program.specs.Case.{name_size};
ghost use Rattle.program.specs.Cause.{atoms_in};
ghost use Rattle.text.specs.Tokens.{Token};
ghost use Rattle.grammar.specs.Line.{body_tokens};
ghost use Rattle.names.specs.Row.{name_in};
ghost use Rattle.output.specs.Writing.{Room};
ghost use Rattle.spelling.specs.Pen.{inked, Spells};
ghost use Rattle.writing.specs.Lines.{literals_on, literals_for};
ghost use Rattle.writing.specs.Steps.{literal_tokens};

use output::name_of;
use spelling::{Pen, closing, opening, word};
use words::walk::bits_of;

// Writes an opening bracket and the word behind it.
pub fn open_word(out: &mut [u8], p: Pen, text: &[u8]) -> Pen
    requires { Room (inked p (Token.opening ∷ (Token.word text.now ∷ []))) p.at }
    ensures { Spells (Token.opening ∷ (Token.word text.now ∷ [])) out.old p result
        out.new }
{
    let q = opening(out, p);
    word(out, q, text)
}

// Writes the literal on the atom with a name.
pub fn literal(out: &mut [u8], p: Pen, name: &[u8], negated: bool) -> Pen
    requires { Room (inked p (literal_tokens negated name.now)) p.at }
    ensures { Spells (literal_tokens negated name.now) out.old p result out.new }
{
    if negated {
        let q = open_word(out, p, b"not");
        let s = word(out, q, name);
        return closing(out, s);
    }
    word(out, p, name)
}

// Writes the literals on the atoms of a word, in atom order.
pub fn literals(out: &mut [u8], p: Pen, names: &[u8], atoms: u64, negated: bool) -> Pen
    requires { (name_size ≤ length names.now)
        × Room (inked p (body_tokens (literals_on (name_in names.now) negated (atoms_in atoms)))) p.at }
    ensures { Spells (body_tokens (literals_on (name_in names.now) negated (atoms_in atoms)))
        out.old p result out.new }
{
    let mut pen = p;
    for a in bits_of(atoms) {
        let name = name_of(names, a as usize);
        pen = literal(out, pen, name, negated);
    }
    pen
}

// Writes the literals of a body, plain ones before negated ones.
pub fn body(out: &mut [u8], p: Pen, names: &[u8], plain: u64, negated: u64) -> Pen
    requires { (name_size ≤ length names.now)
        × Room (inked p (body_tokens (literals_for (name_in names.now) plain negated))) p.at }
    ensures { Spells (body_tokens (literals_for (name_in names.now) plain negated))
        out.old p result out.new }
{
    let q = literals(out, p, names, plain, false);
    literals(out, q, names, negated, true)
}
