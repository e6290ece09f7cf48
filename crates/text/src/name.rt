// Names among the words of a line.
ghost use Rattle.std.specs.Prelude.{◌≡◌};
ghost use Rattle.text.specs.Words.{begins_with_letter};
ghost use Rattle.text.specs.Scanning.{NameFound, NameNext};

use crate::tokens::{Next, token, word_at};

// Whether a word is a name.
#[tactic(auto, unfolding(crate::specs::Words::begins_with_letter))]
pub fn is_name(w: &[u8]) -> bool
    ensures { result ≡ begins_with_letter w.now }
{
    w.first().is_some_and(|b| b.is_ascii_lowercase())
}

// The name that stands next at or behind a place: its first place and the place behind it.
pub fn name_at(l: &[u8], at: usize) -> Option<(usize, usize)>
    ensures { NameNext l.now at result }
{
    let (a, e) = word_at(l, at)?;
    is_name(&l[a..e]).then_some((a, e))
}

// The first name at or behind a place, with its first place and the place behind it: a word that begins with a letter
// and follows no opening bracket.
pub fn next_name(l: &[u8], at: usize) -> Option<(usize, usize)>
    ensures { NameFound l.now at result }
{
    let mut i = at;
    let mut opened = false;
    loop {
        (opened, i) = match token(l, i) {
            Next::End => return None,
            Next::Open(n) => (true, n),
            Next::Close(n) => (false, n),
            Next::Word(a, e) => {
                if !opened && is_name(&l[a..e]) {
                    return Some((a, e));
                }
                (false, e)
            }
        };
    }
}
