// Filling lent tables.
#![tactic(auto)]

ghost use Rattle.std.specs.Prelude.{◌≡◌, [], ◌∷◌, ◌+◌, ◌≤◌, length, get_or};
ghost use Rattle.std.proofs.lemmas.List.Edits.{sets};
ghost use Rattle.table.specs.Filled.{padded};

// Stores three words from a place on.
pub fn put_three(t: &mut [u64], at: usize, a: u64, b: u64, c: u64)
    requires { at + 3 ≤ length t.old }
    ensures { t.new ≡ sets t.old at (a ∷ b ∷ c ∷ []) }
{
    t[at..at + 3].copy_from_slice(&[a, b, c]);
}

// Byte i of w, or 0 past its end.
pub fn byte_or_zero(w: &[u8], i: usize) -> u8
    ensures { result ≡ get_or w.now i 0 }
{
    w.get(i).copied().unwrap_or(0)
}

// Stores the bytes of w, then zeros, in the n entries from a place on. Copying and then filling would be no plainer,
// since a w that is too long is cut.
pub fn put_row(t: &mut [u8], at: usize, n: usize, w: &[u8])
    requires { at + n ≤ length t.old }
    ensures { t.new ≡ sets t.old at (padded n w.now) }
{
    for i in 0..n {
        t[at + i] = byte_or_zero(w, i);
    }
}
