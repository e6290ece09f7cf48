// What the reader knows between two lines.
ghost use Rattle.std.specs.Prelude.{◌≡◌, ◌&&◌, ltb};
ghost use Rattle.words.specs.Bits.{has};

use program::case::Case;

// The record, the atoms with a cost line, bit i for atom i, and how many edition lines were read.
#[derive(Clone, Copy)]
pub struct Progress {
    pub found: Case,
    pub costed: u64,
    pub editions: usize,
}

// Whether an atom is one of those with a cost line.
pub fn is_costed(costed: u64, atom: usize) -> bool
    ensures { result ≡ (ltb atom 64 && has costed atom) }
{
    atom < Case::ATOMS && words::test(costed, atom as u32)
}
