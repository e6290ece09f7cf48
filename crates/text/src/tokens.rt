// The words and brackets of a line.
ghost use Rattle.std.specs.Prelude.{◌≡◌, true, ◌<◌, length, get_or};
ghost use Rattle.text.specs.Bytes.{is_word_byte};
ghost use Rattle.text.specs.Scanning.{WordEnds, Found, WordNext, CloseNext};

use crate::bytes::is_word_byte;

// What stands next in a line: nothing, a bracket with the place behind it, or a word with its first place and the
// place behind it.
#[derive(Clone, Copy)]
pub enum Next {
    End,
    Open(usize),
    Close(usize),
    Word(usize, usize),
}

// The end of the word that starts at a place.
pub fn word_end(l: &[u8], at: usize) -> usize
    requires { (at < length l.now) × (is_word_byte (get_or l.now at 0) ≡ true) }
    ensures { WordEnds l.now at result }
{
    for i in at..l.len() {
        if !is_word_byte(l[i]) {
            return i;
        }
    }
    l.len()
}

// The first token at or behind a place.
pub fn token(l: &[u8], at: usize) -> Next
    ensures { Found l.now at result }
{
    for i in at..l.len() {
        match l[i] {
            b'(' => return Next::Open(i + 1),
            b')' => return Next::Close(i + 1),
            b if is_word_byte(b) => return Next::Word(i, word_end(l, i)),
            _ => {}
        }
    }
    Next::End
}

// The word that stands next at or behind a place: its first place and the place behind it.
pub fn word_at(l: &[u8], at: usize) -> Option<(usize, usize)>
    ensures { WordNext l.now at result }
{
    let Next::Word(a, e) = token(l, at) else {
        return None;
    };
    Some((a, e))
}

// The place behind the closing bracket that stands next at or behind a place.
pub fn close_at(l: &[u8], at: usize) -> Option<usize>
    ensures { CloseNext l.now at result }
{
    let Next::Close(next) = token(l, at) else {
        return None;
    };
    Some(next)
}
