// A walk over the bits of a word.
ghost use Rattle.std.specs.Prelude.{◌≡◌};
ghost use Rattle.std.specs.Iterator.{at_most};
ghost use Rattle.words.specs.BitWalk.{Steps};

// The bits of a word that are still to come, lowest first.
#[derive(Clone, Copy)]
pub struct Bits {
    pub left: u64,
}

impl Iterator for Bits {
    type Item = u32;

    ghost next_gives = { Steps };

    ghost remaining = { λ b. at_most b.left };

    fn next(&mut self) -> Option<u32> {
        if self.left == 0 {
            return None;
        }
        let i = crate::lowest_bit(self.left);
        self.left = crate::without_lowest(self.left);
        Some(i)
    }
}

// The numbers of the bits of w, lowest first.
pub fn bits_of(w: u64) -> Bits
    ensures { result.left ≡ w }
{
    Bits { left: w }
}
