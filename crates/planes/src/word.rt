// The words of one atom: in which lanes it is undecided, and what the first round makes of them.
ghost use Rattle.std.specs.Prelude.{◌≡◌, not, ◌||◌, ℕ, ◌<◌};
ghost use Rattle.words.specs.Bits.{has};
ghost use Rattle.planes.specs.Word.{OpensWord};

use crate::plane::Lanes;

// The lanes in which an atom with these words is undecided.
pub fn undecided(trues: u64, falses: u64) -> u64
    ensures { (j : ℕ) → j < 64 → has result j ≡ not (has trues j || has falses j) }
{
    !(trues | falses)
}

// The first round's words of an atom: true and false with nothing added, whether it is a head, and what is added.
pub fn open_word(t: u64, f: u64, head: u64, fact: u64, assumed: u64) -> Lanes
    ensures { OpensWord t f head fact assumed result }
{
    Lanes {
        trues: t | fact,
        falses: (f | (assumed & !head)) & !fact,
    }
}
