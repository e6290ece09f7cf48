// Words of 64 bits as sets of bit numbers: one bit, the lowest bits, the test of a bit, a bit added, the count of ones,
// a walk over the bits.
#![tactic(auto)]

pub mod walk;

ghost use Rattle.std.specs.Prelude.{◌≡◌, ℕ, ◌+◌, ◌^◌, ◌≤◌, ◌<◌};
ghost use Rattle.std.specs.Int.Count.{ones};
ghost use Rattle.words.specs.Bits.{has};
ghost use Rattle.words.specs.OneBit.{with_bit, without_bit, LowestOf};

// The word with bit i alone.
pub fn single(i: u32) -> u64
    requires { i < 64 }
    ensures { result ≡ 2 ^ i }
{
    1u64 << i
}

// The word with the lowest n bits.
pub fn lowest(n: u32) -> u64
    requires { (1 ≤ n) × (n ≤ 64) }
    ensures { result + 1 ≡ 2 ^ n }
{
    u64::MAX >> (64 - n)
}

// Whether w has bit i.
pub fn test(w: u64, i: u32) -> bool
    requires { i < 64 }
    ensures { result ≡ has w i }
{
    w & (1u64 << i) != 0
}

// The word w, and bit i where the test holds.
pub fn with_bit(w: u64, on: bool, i: u32) -> u64
    requires { i < 64 }
    ensures { result ≡ with_bit on w i }
{
    if on { w | single(i) } else { w }
}

// How many bits w has.
pub fn count(w: u64) -> u32
    ensures { result ≡ ones w }
{
    w.count_ones()
}

// The number of the lowest bit of w.
pub fn lowest_bit(w: u64) -> u32
    requires { w ≡ 0 → ⊥ }
    ensures { LowestOf w result }
{
    w.trailing_zeros()
}

// The word w without bit i.
pub fn without(w: u64, i: u32) -> u64
    requires { i < 64 }
    ensures { result ≡ without_bit w i }
{
    w & !(1u64 << i)
}

// The word w without its lowest bit.
pub fn without_lowest(w: u64) -> u64
    requires { w ≡ 0 → ⊥ }
    ensures { (i : ℕ) → LowestOf w i → result ≡ without_bit w i }
{
    w & (w - 1)
}
