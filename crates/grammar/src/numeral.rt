// Numbers in a line.
ghost use Rattle.grammar.specs.Parsing.{NumeralFound};

use text::number::number_at;
use text::tokens::word_at;

// A number found in a line: its value and the place behind it.
#[derive(Clone, Copy)]
pub struct Numeral {
    pub value: usize,
    pub next: usize,
}

// The number at or behind a place.
pub fn numeral_at(l: &[u8], at: usize) -> Option<Numeral>
    ensures { NumeralFound l.now at result }
{
    let (a, next) = word_at(l, at)?;
    let value = number_at(&l[a..next])?;
    Some(Numeral { value, next })
}
