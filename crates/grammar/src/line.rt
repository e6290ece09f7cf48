// The form of a line.
ghost use Rattle.std.specs.Prelude.{◌≤◌, ◌≡◌, length};
ghost use Rattle.formulas.specs.Keyword.{Below};
ghost use Rattle.grammar.specs.LineOf.{kind_of};
ghost use Rattle.grammar.specs.Parsing.{FormFound, FormAfter, Brought, ends_line};

use crate::brings::Brings;
use crate::literal::body_at;
use crate::numeral::numeral_at;
use formulas::formula::{Parse, formula_at};
use formulas::keyword::place_of;
use text::name::name_at;
use text::tokens::{Next, close_at, token, word_at};

// The form of a line with the places of its parts: a clause's kind, the ends of its head, behind which its literals
// begin, and their number; a constraint's kind, the place where its literals begin, and their number; the place where
// a reading's literal or a formula begins, a formula's depth; the ends of a cost's name, its price and supplement; the
// ends of an atom line's name; and the number of an edition.
#[derive(Clone, Copy)]
pub enum Form {
    Skipped,
    Clause(usize, usize, usize, usize),
    Constraint(usize, usize, usize),
    Seen(usize),
    Query(usize, usize),
    Cost(usize, usize, usize, usize),
    Atom(usize, usize),
    Edition(usize),
}

// The words of lines, in the order of their kinds. A kind is a number, as the tables hold it.
const LINE_WORDS: [&[u8]; 10] = [
    b"true", b"false", b"if", b"never", b"avoid", b"seen", b"query", b"cost", b"atom", b"edition",
];

// The kind of the line that has a word.
fn kind_of(w: &[u8]) -> Option<usize>
    ensures { Below 10 (kind_of w.now) result }
{
    place_of(w, &LINE_WORDS)
}

// Whether a closing bracket is all that is left of a line from a place on.
fn ends_line(l: &[u8], at: usize) -> bool
    ensures { result ≡ ends_line l.now at }
{
    match close_at(l, at) {
        Some(i) => matches!(token(l, i), Next::End),
        None => false,
    }
}

// A clause from behind its word on.
fn clause_form(l: &[u8], at: usize, kind: usize) -> Option<Form>
    requires { kind ≤ 2 }
    ensures { FormAfter l.now at kind result }
{
    let (a, e) = name_at(l, at)?;
    let literals = body_at(l, e, kind)?;
    Some(Form::Clause(kind, a, e, literals))
}

// A query from behind its word on.
fn query_form(l: &[u8], at: usize) -> Option<Form>
    ensures { FormAfter l.now at 6 result }
{
    let Parse { next, depth } = formula_at(l, at)?;
    ends_line(l, next).then_some(Form::Query(at, depth))
}

// A cost from behind its word on: a name, a price and a supplement.
fn cost_form(l: &[u8], at: usize) -> Option<Form>
    ensures { FormAfter l.now at 7 result }
{
    let (a, e) = name_at(l, at)?;
    let price = numeral_at(l, e)?;
    let supplement = numeral_at(l, price.next)?;
    ends_line(l, supplement.next).then_some(Form::Cost(a, e, price.value, supplement.value))
}

// An atom line from behind its word on: a name.
fn atom_form(l: &[u8], at: usize) -> Option<Form>
    ensures { FormAfter l.now at 8 result }
{
    let (a, e) = name_at(l, at)?;
    ends_line(l, e).then_some(Form::Atom(a, e))
}

// An edition line from behind its word on: the digit 1 or 2.
fn edition_form(l: &[u8], at: usize) -> Option<Form>
    ensures { FormAfter l.now at 9 result }
{
    let (a, e) = word_at(l, at)?;
    if !ends_line(l, e) {
        return None;
    }
    match &l[a..e] {
        b"1" => Some(Form::Edition(1)),
        b"2" => Some(Form::Edition(2)),
        _ => None,
    }
}

// The form of a kind from behind its word on.
fn form_of_kind(l: &[u8], at: usize, kind: usize) -> Option<Form>
    requires { at ≤ length l.now }
    ensures { FormAfter l.now at kind result }
{
    match kind {
        0..=2 => clause_form(l, at, kind),
        3..=4 => {
            let literals = body_at(l, at, kind)?;
            Some(Form::Constraint(kind - 3, at, literals))
        }
        5 => {
            body_at(l, at, 5)?;
            Some(Form::Seen(at))
        }
        6 => query_form(l, at),
        7 => cost_form(l, at),
        8 => atom_form(l, at),
        9 => edition_form(l, at),
        _ => None,
    }
}

// The form of a line.
pub fn form_of(l: &[u8]) -> Option<Form>
    ensures { FormFound l.now result }
{
    match token(l, 0) {
        Next::End => Some(Form::Skipped),
        Next::Open(i) => {
            let (a, e) = word_at(l, i)?;
            let kind = kind_of(&l[a..e])?;
            form_of_kind(l, e, kind)
        }
        _ => None,
    }
}

// What a line of a form, or of none, brings.
pub fn brings(x: Option<Form>) -> Brings
    ensures { Brought x result }
{
    match x {
        Some(Form::Clause(_, _, _, literals)) => Brings {
            clauses: 1,
            literals,
            ..Brings::NOTHING
        },
        Some(Form::Constraint(_, _, literals)) => Brings {
            constraints: 1,
            literals,
            ..Brings::NOTHING
        },
        Some(Form::Query(_, depth)) => Brings {
            queries: 1,
            depth,
            ..Brings::NOTHING
        },
        Some(Form::Cost(_, _, price, supplement)) => Brings {
            price,
            supplement,
            ..Brings::NOTHING
        },
        Some(Form::Edition(_)) => Brings {
            editions: 1,
            ..Brings::NOTHING
        },
        Some(Form::Skipped | Form::Seen(_) | Form::Atom(_, _)) | None => Brings::NOTHING,
    }
}
