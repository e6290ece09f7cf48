// Formulas in a line.
ghost use Rattle.formulas.specs.Parsing.{HeadAt, Parsed, Closed};

use crate::keyword::{NOT, node_of};
use text::name::is_name;
use text::tokens::{Next, close_at, token, word_at};

// What a formula begins with: a name and its ends, or the node of a form and the place behind its word.
#[derive(Clone, Copy)]
pub enum Head {
    Name(usize, usize),
    Form(u8, usize),
}

// A formula found in a line: the place behind it, and its depth.
#[derive(Clone, Copy)]
pub struct Parse {
    pub next: usize,
    pub depth: usize,
}

// What the formula at or behind a place begins with.
pub fn head_at(l: &[u8], at: usize) -> Option<Head>
    ensures { HeadAt l.now at result }
{
    match token(l, at) {
        Next::Word(a, e) => is_name(&l[a..e]).then_some(Head::Name(a, e)),
        Next::Open(i) => {
            let (a, e) = word_at(l, i)?;
            let node = node_of(&l[a..e])?;
            Some(Head::Form(node, e))
        }
        _ => None,
    }
}

// A form of a depth, where its closing bracket is at or behind a place.
fn closed_form(l: &[u8], at: usize, depth: usize) -> Option<Parse>
    ensures { Closed l.now at depth result }
{
    let next = close_at(l, at)?;
    Some(Parse { next, depth })
}

// The formula at or behind a place.
pub fn formula_at(l: &[u8], at: usize) -> Option<Parse>
    ensures { Parsed l.now at result }
{
    match head_at(l, at)? {
        Head::Name(_, next) => Some(Parse { next, depth: 1 }),
        Head::Form(node, e) => {
            let first = formula_at(l, e)?;
            if node == NOT {
                return closed_form(l, first.next, first.depth + 1);
            }
            let second = formula_at(l, first.next)?;
            closed_form(l, second.next, first.depth.max(second.depth) + 1)
        }
    }
}
