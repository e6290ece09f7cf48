// Writing the words and brackets of lines, and the ends of lines, to a lent output.
#![tactic(auto)]

ghost use Rattle.std.specs.Prelude.{[], ◌∷◌, ◌+◌, ◌*◌, ◌≤◌, length};
ghost use Rattle.text.specs.Tokens.{Token};
ghost use Rattle.names.specs.Row.{name_in};
ghost use Rattle.output.specs.Decimal.{decimal};
ghost use Rattle.output.specs.Writing.{Room, Writes};
ghost use Rattle.spelling.specs.Pen.{gap_of, inked, Spells};
ghost use Rattle.spelling.specs.Page.{Ends};

use output::{name_of, put, put_decimal, put_text};

// A place of the output, and whether a word stands just before it.
#[derive(Clone, Copy)]
pub struct Pen {
    pub at: usize,
    pub behind: bool,
}

// A place of the output where a line starts, and whether a line before it is over 200 bytes.
#[derive(Clone, Copy)]
pub struct Page {
    pub at: usize,
    pub long: bool,
}

// Writes an opening bracket.
pub fn opening(out: &mut [u8], p: Pen) -> Pen
    requires { Room (inked p (Token.opening ∷ [])) p.at }
    ensures { Spells (Token.opening ∷ []) out.old p result out.new }
{
    let at = put(out, p.at, b'(');
    Pen { at, behind: false }
}

// Writes a closing bracket.
pub fn closing(out: &mut [u8], p: Pen) -> Pen
    requires { Room (inked p (Token.closing ∷ [])) p.at }
    ensures { Spells (Token.closing ∷ []) out.old p result out.new }
{
    Pen {
        at: put(out, p.at, b')'),
        behind: false,
    }
}

// Writes a space where a word stands just before, and answers the place behind it.
pub fn gap(out: &mut [u8], p: Pen) -> usize
    requires { Room (gap_of p.behind) p.at }
    ensures { Writes (gap_of p.behind) out.old p.at result out.new }
{
    if p.behind {
        return put(out, p.at, b' ');
    }
    p.at
}

// Writes a word.
pub fn word(out: &mut [u8], p: Pen, text: &[u8]) -> Pen
    requires { Room (inked p (Token.word text.now ∷ [])) p.at }
    ensures { Spells (Token.word text.now ∷ []) out.old p result out.new }
{
    let first = gap(out, p);
    let at = put_text(out, first, text);
    Pen { at, behind: true }
}

// Writes the name of an atom as a word.
pub fn name(out: &mut [u8], p: Pen, names: &[u8], atom: usize) -> Pen
    requires { (16 * atom + 16 ≤ length names.now)
        × Room (inked p (Token.word (name_in names.now atom) ∷ [])) p.at }
    ensures { Spells (Token.word (name_in names.now atom) ∷ []) out.old p result
        out.new }
{
    word(out, p, name_of(names, atom))
}

// Writes a number in decimal as a word.
pub fn number(out: &mut [u8], p: Pen, n: u64) -> Pen
    requires { Room (inked p (Token.word (decimal n) ∷ [])) p.at }
    ensures { Spells (Token.word (decimal n) ∷ []) out.old p result out.new }
{
    let first = gap(out, p);
    let at = put_decimal(out, first, n);
    Pen { at, behind: true }
}

// Ends a line that started at a page's place and was written up to a pen's.
pub fn end_line(out: &mut [u8], from: Page, p: Pen) -> Page
    requires { (from.at ≤ p.at) × Room (10 ∷ []) p.at }
    ensures { Ends from p out.old result out.new }
{
    let at = put(out, p.at, b'\n');
    let long = from.long || 200 < p.at - from.at;
    Page { at, long }
}
