// Literals in a line.
ghost use Rattle.std.specs.Prelude.{◌≡◌, ◌≤◌, length};
ghost use Rattle.grammar.specs.Line.{takes};
ghost use Rattle.grammar.specs.Parsing.{LiteralFound, NegationFound, BodyFound};

use formulas::keyword::{NOT, node_of};
use text::name::{is_name, name_at};
use text::tokens::{Next, close_at, token, word_at};

// What a body has next: its end, or a literal, whether it is negated, the ends of its name, and the place behind it.
#[derive(Clone, Copy)]
pub enum Lit {
    BodyEnd,
    Literal(bool, usize, usize, usize),
}

// The negated name whose opening bracket stands before a place.
fn negated_name(l: &[u8], at: usize) -> Option<Lit>
    ensures { NegationFound l.now at result }
{
    let (a, e) = word_at(l, at)?;
    if node_of(&l[a..e])? != NOT {
        return None;
    }
    let (b, f) = name_at(l, e)?;
    let next = close_at(l, f)?;
    Some(Lit::Literal(true, b, f, next))
}

// The literal at or behind a place, or the end of the body and the line.
pub fn literal(l: &[u8], at: usize) -> Option<Lit>
    ensures { LiteralFound l.now at result }
{
    match token(l, at) {
        Next::End => None,
        Next::Word(a, e) => is_name(&l[a..e]).then_some(Lit::Literal(false, a, e, e)),
        Next::Open(i) => negated_name(l, i),
        Next::Close(i) => match token(l, i) {
            Next::End => Some(Lit::BodyEnd),
            _ => None,
        },
    }
}

// Whether a line of a kind takes n literals.
fn takes(kind: usize, n: usize) -> bool
    ensures { result ≡ takes kind n }
{
    match kind {
        0 | 1 => n == 0,
        5 => n == 1,
        _ => n > 0,
    }
}

// The number of the literals from a place to the end of the line, as many as a line of a kind takes.
pub fn body_at(l: &[u8], at: usize, kind: usize) -> Option<usize>
    requires { at ≤ length l.now }
    ensures { BodyFound l.now at kind result }
{
    let mut i = at;
    let mut count = 0;
    while let Lit::Literal(_, _, _, next) = literal(l, i)? {
        i = next;
        count += 1;
    }
    takes(kind, count).then_some(count)
}
