// The words of forms.
ghost use Rattle.std.specs.Prelude.{map, length};
ghost use Rattle.text.specs.Words.{place_of};
ghost use Rattle.formulas.specs.Keyword.{Below, NodeFound};

// The node of a negation, the first of the forms.
pub const NOT: u8 = 64;

// The words of forms, in the order of their nodes.
const FORM_WORDS: [&[u8]; 5] = [b"not", b"and", b"or", b"then", b"same"];

// The place of a word among words, or none.
pub fn place_of(w: &[u8], words: &[&[u8]]) -> Option<usize>
    ensures { Below (length words.now) (place_of (map (λ v. v.now) words.now) w.now) result }
{
    words.iter().position(|v| *v == w)
}

// The node of the form that has a word.
pub fn node_of(w: &[u8]) -> Option<u8>
    ensures { NodeFound w.now result }
{
    let place = place_of(w, &FORM_WORDS)?;
    Some(NOT + place as u8)
}
