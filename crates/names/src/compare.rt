// A word compared with an entry of the names table.
ghost use Rattle.std.specs.Prelude.{◌≡◌, ◌≤◌, ◌<◌, length};
ghost use Rattle.program.specs.Case.{name_size};
ghost use Rattle.names.specs.Row.{row_at};
ghost use Rattle.names.specs.Compared.{ends_agree, compared_as};

use crate::row_is;

// How a word compares with an entry: its first or last byte differs from the entry's at that place, these agree but the
// entry is another name, or the entry is the word.
#[derive(Clone, Copy, PartialEq, Eq)]
pub enum Compared {
    EndsDiffer,
    Another,
    Same,
}

// Whether row i has the first and the last byte of the word w at their places; of an empty word both are 0.
fn ends_agree(names: &[u8], i: usize, w: &[u8]) -> bool
    requires { (i < 64) × (name_size ≤ length names.now) }
    ensures { result ≡ ends_agree (row_at names.now i) w.now }
{
    let row = &names[i * 16..i * 16 + 16];
    match w {
        [] => row[0] == 0,
        [first, ..] => row[0] == *first && table::byte_or_zero(row, w.len() - 1) == w[w.len() - 1],
    }
}

// How the word w compares with row i: its first and last byte are looked at before any other.
#[tactic(auto, unfolding(crate::specs::Compared::compared_as))]
pub fn compare(names: &[u8], i: usize, w: &[u8]) -> Compared
    requires { (i < 64) × (name_size ≤ length names.now) }
    ensures { result ≡ compared_as (row_at names.now i) w.now }
{
    if !ends_agree(names, i, w) {
        return Compared::EndsDiffer;
    }
    if row_is(names, i, w) {
        return Compared::Same;
    }
    Compared::Another
}
